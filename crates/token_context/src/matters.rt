ghost use Rattle.std.specs.Prelude.{◌↔◌, IsTrue};
ghost use Rattle.module_grammar.specs.Symbols.{close_paren, kind_of, open_paren, unnamed_addr, void};
ghost use Rattle.token_context.specs.Readings.{debug_kind, global_kind};
ghost use Rattle.token_context.specs.SideBySide.{AreSideBySide, DoParensMatter};

/// The kinds of names of functions, of debugging or not, of what is none of the grammar, of `void`, of `unnamed_addr`, and of parentheses.
const GLOBAL: u8 = 1;

const DEBUG: u8 = 2;

const FOREIGN: u8 = 23;

const VOID: u8 = 25;

const UNNAMED_ADDR: u8 = 51;

const OPEN_PAREN: u8 = 66;

const CLOSE_PAREN: u8 = 67;

/// Which tokens stand somewhere side by side.
#[derive(Drop)]
struct Sides {
    /// `void` and a parenthesis that opens.
    void: bool,
    /// A name of debugging and a parenthesis that opens.
    debug: bool,
    /// A parenthesis that closes and the name of a function.
    global: bool,
    /// A parenthesis that closes and `unnamed_addr`.
    addr: bool,
}

/// Which tokens of these kinds stand somewhere side by side. It takes no branch at a token, so that many are
/// looked at at once.
#[inline(always)]
fn sides_of(kinds: &[u8]) -> Sides
    ensures void { IsTrue result.void ↔ AreSideBySide (kind_of void) (kind_of open_paren) kinds.now }
    ensures debug { IsTrue result.debug ↔ AreSideBySide debug_kind (kind_of open_paren) kinds.now }
    ensures global { IsTrue result.global ↔ AreSideBySide (kind_of close_paren) global_kind kinds.now }
    ensures addr { IsTrue result.addr ↔ AreSideBySide (kind_of close_paren) (kind_of unnamed_addr) kinds.now }
{
    let mut sides = Sides {
        void: false,
        debug: false,
        global: false,
        addr: false,
    };
    let mut before = FOREIGN;
    for kind in kinds {
        sides.void |= (before == VOID) & (*kind == OPEN_PAREN);
        sides.debug |= (before == DEBUG) & (*kind == OPEN_PAREN);
        sides.global |= (before == CLOSE_PAREN) & (*kind == GLOBAL);
        sides.addr |= (before == CLOSE_PAREN) & (*kind == UNNAMED_ADDR);
        before = *kind;
    }
    sides
}

/// Whether a token can be another where it stands than by itself: one parenthesis opens somewhere behind `void` and one closes somewhere
/// before the name of a function, or one opens somewhere behind a name of debugging and one closes somewhere before `unnamed_addr`. Only
/// then brackets have to be matched.
#[inline(never)]
pub fn do_parens_matter(kinds: &[u8]) -> bool
    ensures { IsTrue result ↔ DoParensMatter kinds.now }
{
    let sides = sides_of(kinds);
    sides.void && sides.global || sides.debug && sides.addr
}
