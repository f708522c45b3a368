//! The types of expressions. `type_of` gives the type that an expression has in a scope, or why it has none,
//! exactly as the definition says. Each name is looked up in an index.
#![tactic(auto)]

mod arity;
mod logic;
mod names;
mod scope;
mod types;

ghost use Rattle.std.specs.Prelude.{◌≡◌};
ghost use Rattle.db_model.specs.Typing.{type_of};
ghost use Rattle.expr_type.specs.Scope.{IsScope};

pub use arity::has_wrong_arity;
use db_model::{Expr, Ty, TypeFault};
pub use names::has_undeclared;
pub use scope::Scope;
pub use types::declared_type;

/// The type of an expression. `Undeclared` comes where it names something that isn't declared, else `Arity` where
/// a look-up has a wrong number of keys, else `Mistyped` where the types of its parts don't fit. Takes no memory,
/// and goes as deep as the expression.
pub fn type_of(e: &Expr, scope: &Scope) -> Result<Ty, TypeFault>
    requires { IsScope scope.now }
    ensures { result ≡ type_of scope.now.database.now scope.now.fields.now e.now }
{
    if has_undeclared(e, scope) {
        return Err(TypeFault::Undeclared);
    }
    if has_wrong_arity(e, scope) {
        return Err(TypeFault::Arity);
    }
    types::type_by(e, scope).ok_or(TypeFault::Mistyped)
}
