ghost use Rattle.expression_reader.specs.Laws.{EachExpressionIsJudged, ExpressionFaultsAreOne, ExpressionsAreOne, FaultsExclude};
ghost use Rattle.expression_reader.specs.NameLaws.{EachNameIsJudged, FaultsExclude as NameFaultsExclude, NameFaultsAreOne, NamesAreOne};
ghost use Rattle.expression_reader.specs.TypeLaws.{EachTypeIsJudged, FaultsExclude as TypeFaultsExclude, TypeFaultsAreOne, TypesAreOne};

use module_grammar::written_once;

/// The body calls laws alone, since the clause is a law.
///
/// A text spells one expression.
pub fn texts_spell_one_expression()
    ensures { ExpressionsAreOne }
{
    written_once();
}

/// The body calls laws alone, since the clause is a law.
///
/// A text of at most 2 to the 24 bytes that has a fault spells no expression.
pub fn faults_and_expressions_exclude()
    ensures { FaultsExclude }
{
    written_once();
}

/// The body calls laws alone, since the clause is a law.
///
/// A text has one first fault at most: its kind, its place and, where a word is left out, its length.
pub fn expression_faults_are_one()
    ensures { ExpressionFaultsAreOne }
{
    written_once();
}

/// The body calls laws alone, since the clause is a law.
///
/// A text spells one type.
pub fn texts_spell_one_type()
    ensures { TypesAreOne }
{
    written_once();
}

/// The body calls laws alone, since the clause is a law.
///
/// A text of at most 2 to the 24 bytes that has a fault spells no type.
pub fn faults_and_types_exclude()
    ensures { TypeFaultsExclude }
{
    written_once();
}

/// The body calls laws alone, since the clause is a law.
///
/// A text has one first fault at most: its kind, its place and, where a word is left out, its length.
pub fn type_faults_are_one()
    ensures { TypeFaultsAreOne }
{
    written_once();
}

/// Empty on purpose: its contract is the law.
///
/// Each text of at most 2 to the 24 bytes spells an expression, or has a first fault; a longer one has the fault that it is too long.
pub fn each_expression_is_judged()
    ensures { EachExpressionIsJudged }
{}

/// Empty on purpose: its contract is the law.
///
/// Each text of at most 2 to the 24 bytes spells a type, or has a first fault; a longer one has the fault that it is too long.
pub fn each_type_is_judged()
    ensures { EachTypeIsJudged }
{}

/// Empty on purpose: its contract is the law.
///
/// Behind each sigil a text spells one name.
#[tactic(auto, using(crate::proofs::NameTexts::names_are_one))]
pub fn texts_spell_one_name()
    ensures { NamesAreOne }
{}

/// Empty on purpose: its contract is the law.
///
/// A text of at most 2 to the 24 bytes that has a fault spells no name.
#[tactic(auto, using(crate::proofs::NameTexts::names_exclude))]
pub fn faults_and_names_exclude()
    ensures { NameFaultsExclude }
{}

/// Empty on purpose: its contract is the law.
///
/// A text has one first fault at most: its kind, its place and, where a word is left out, its length.
#[tactic(auto, using(crate::proofs::NameTexts::name_faults_are_one))]
pub fn name_faults_are_one()
    ensures { NameFaultsAreOne }
{}

/// Empty on purpose: its contract is the law.
///
/// Each text of at most 2 to the 24 bytes spells a name, or has a first fault; a longer one has the fault that it is too long.
pub fn each_name_is_judged()
    ensures { EachNameIsJudged }
{}
