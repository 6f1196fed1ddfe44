//! From a tree to the interface it stands for.

ghost use Rattle.std.specs.Prelude.{◌≡◌, OnOk, IfOk, IfErr, IfSome, None, All, map};
ghost use Rattle.fl_check.specs.Known.{nothing_declared, after_all};
ghost use Rattle.fl_check.specs.Places.{places_from, first_looks};
ghost use Rattle.fl_check.specs.Checks.{first_fault, IsSound, Checks};
ghost use Rattle.fl_check.specs.Faults.{Tells, ComesAfter};
ghost use Rattle.fl_check.specs.declared.fault.CheckFault.TheVariants.{Memory};
ghost use Rattle.fl_check.specs.Outcome.{outcome_of};
ghost use Rattle.fl_check.specs.Views.{before_of};
ghost use Rattle.fl_parse.specs.Tree.{tree_of, declaration_of};

use crate::declared::Declared;
use crate::fault::CheckFault;
use crate::words::word_of;
use fl_interface::{Interface, counts_fit};
use fl_parse::{Declaration, Tree};
use std::alloc::Global;

/// The interface that a tree stands for.
///
/// Declarations are looked at in order, the parts of each from left to right, then the declaration as
/// a whole. The first fault is answered, and of several at one place the one of the least number.
///
/// # Errors
/// E10 to E21 at the word or number where the rule is broken, or E99 where memory is refused: then no rule is broken at the place
/// that the checker looks at first, the first part of the first declaration, unless that is an rpc, whose two names take
/// memory before they are looked at.
pub fn check(alloc: Global, tree: &Tree) -> Result<Interface, CheckFault>
    ensures outcome { IfSome (outcome_of result) (λ outcome. Checks (tree_of tree.now) outcome) }
    ensures memory { IfErr result (λ fault. fault ≡ Memory → All IsSound (first_looks (tree_of tree.now).declarations)) }
{
    let declared = declare_all(alloc, &tree.declarations)?;
    let name = word_of(alloc, &tree.name)?;
    let messages = declared.into_messages(alloc)?;
    counts_fit(&messages);
    Ok(Interface { name, messages })
}

fn declare_all<'a>(
    alloc: Global,
    declarations: &[Declaration<'a>],
) -> Result<Declared<'a>, CheckFault>
    ensures sound { OnOk result (first_fault (places_from nothing_declared (map declaration_of declarations.now)) ≡ None) }
    ensures after { IfOk result (λ d. before_of d ≡ after_all nothing_declared (map declaration_of declarations.now)) }
    ensures fault { IfErr result (λ e. Tells e (first_fault (places_from nothing_declared (map declaration_of declarations.now)))) }
    ensures memory { IfErr result (λ e. ComesAfter e (first_looks (map declaration_of declarations.now))) }
{
    let mut declared = Declared::new(alloc);
    for declaration in declarations {
        declared.declare(alloc, declaration)?;
    }
    Ok(declared)
}
