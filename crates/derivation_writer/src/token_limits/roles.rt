ghost use Rattle.std.specs.Prelude.{◌≡◌, get_or};
ghost use Rattle.derivation_writer.specs.TokenLimits.Roles.{role_of};
ghost use Rattle.derivation_writer.specs.declared.token_limits.role.Role.TheVariants.{Plain};

use crate::token_limits::role::Role::{self, Base, Definition, Line, Part, Plain, Pointers};

/// The roles of the first rules; those behind them have none.
static ROLES: [Role; 199] = [
    Plain, Plain, Plain, Plain, Plain, Plain, Plain, Plain, Definition, Plain, Part, Plain, Plain,
    Plain, Plain, Plain, Plain, Plain, Plain, Plain, Plain, Plain, Plain, Plain, Plain, Plain,
    Plain, Plain, Plain, Plain, Plain, Plain, Plain, Plain, Plain, Plain, Plain, Plain, Plain,
    Plain, Plain, Plain, Plain, Plain, Plain, Plain, Plain, Plain, Plain, Plain, Plain, Plain,
    Plain, Plain, Plain, Plain, Plain, Plain, Plain, Plain, Plain, Plain, Plain, Plain, Plain,
    Plain, Plain, Plain, Plain, Plain, Plain, Plain, Plain, Plain, Pointers, Base, Base, Base,
    Base, Plain, Part, Plain, Plain, Plain, Plain, Plain, Plain, Plain, Plain, Plain, Plain, Plain,
    Plain, Plain, Plain, Plain, Plain, Plain, Plain, Part, Part, Part, Part, Part, Part, Plain,
    Plain, Plain, Part, Part, Part, Part, Plain, Plain, Plain, Plain, Plain, Plain, Plain, Plain,
    Plain, Plain, Plain, Plain, Plain, Plain, Plain, Plain, Line, Line, Line, Line, Line, Plain,
    Line, Line, Line, Line, Plain, Plain, Plain, Plain, Plain, Plain, Plain, Plain, Plain, Plain,
    Plain, Plain, Plain, Plain, Line, Line, Line, Plain, Plain, Plain, Plain, Line, Plain, Plain,
    Plain, Plain, Plain, Plain, Plain, Plain, Plain, Plain, Plain, Plain, Plain, Plain, Plain,
    Plain, Plain, Plain, Plain, Plain, Plain, Plain, Plain, Plain, Plain, Plain, Plain, Plain,
    Line, Plain, Plain, Plain, Plain, Plain, Plain, Line, Line, Line, Line,
];

/// The role of that number.
#[inline(always)]
fn role_at(roles: &[Role], rule: u16) -> Role
    ensures { result ≡ get_or roles.now rule Plain }
{
    match roles.get(usize::from(rule)) {
        Some(role) => *role,
        None => Plain,
    }
}

/// What the rule of this number has to do with depths and lines.
#[inline(always)]
pub fn role(rule: u16) -> Role
    ensures { result ≡ role_of rule }
{
    role_at(&ROLES, rule)
}
