ghost use Rattle.std.specs.Prelude.{◌≡◌, [], ◌∷◌, ◌++◌, Err, IfOk, OnErr, OnOk};
ghost use Rattle.policy.specs.Codes.{change_code, operator_code};
ghost use Rattle.policy.specs.Commands.{Context, guarding, one_item, two_alike};
ghost use Rattle.policy.specs.Reading.{reads, changes, combines, guards, puts};
ghost use Rattle.policy.specs.Values.{digits_of};
ghost use Rattle.policy.specs.View as view;
ghost use Rattle.inspect.specs.declared.failure.Failure.TheVariants.{Items};
ghost use Rattle.inspect.specs.Kinds.{Allows, NeedsMemoryAlone, Turns, kind_of};
ghost use Rattle.inspect.specs.Trees as trees;
ghost use Rattle.inspect.specs.Trees.{Becomes, Builds};

use super::{Item, Policy, Target};
use crate::failure::Failure;
use policy::{Change, Command, Commands, Operator};
use std::alloc::Global;

// An item after a one-operand operator.
fn changed(heap: Global, change: Change, item: Item) -> Result<Item, Failure>
    ensures tree { Becomes result (λ x s. changes (change_code change) (trees.item x item ∷ s)) }
    ensures kind { Turns result (λ ks. one_item (kind_of item ∷ ks)) }
{
    match item {
        Item::Target(target) => {
            let target = Box::new(heap, target)?;
            Ok(Item::Target(Target::Change(change, target)))
        }
        Item::Policy(policy) => {
            let policy = Box::new(heap, policy)?;
            Ok(Item::Policy(Policy::Change(change, policy)))
        }
    }
}

// Two items of one kind under a two-operand operator.
fn combined(heap: Global, operator: Operator, first: Item, second: Item) -> Result<Item, Failure>
    ensures tree { Becomes result (λ x s. combines (digits_of x.operators (operator_code operator)) (trees.item x second ∷ trees.item x first ∷ s)) }
    ensures kind { Turns result (λ ks. two_alike (kind_of second ∷ kind_of first ∷ ks)) }
{
    match (first, second) {
        (Item::Target(a), Item::Target(b)) => {
            let first = Box::new(heap, a)?;
            let second = Box::new(heap, b)?;
            Ok(Item::Target(Target::Combine(operator, first, second)))
        }
        (Item::Policy(a), Item::Policy(b)) => {
            let first = Box::new(heap, a)?;
            let second = Box::new(heap, b)?;
            Ok(Item::Policy(Policy::Combine(operator, first, second)))
        }
        _ => Err(Failure::Items),
    }
}

// A policy under the target that guards it.
fn guarded(heap: Global, first: Item, second: Item) -> Result<Item, Failure>
    ensures tree { Becomes result (λ x s. guards (trees.item x second ∷ trees.item x first ∷ s)) }
    ensures kind { Turns result (λ ks. guarding (kind_of second ∷ kind_of first ∷ ks)) }
{
    match (first, second) {
        (Item::Target(target), Item::Policy(policy)) => {
            let policy = Box::new(heap, policy)?;
            Ok(Item::Policy(Policy::Guard(target, policy)))
        }
        _ => Err(Failure::Items),
    }
}

fn popped(items: &mut Vec<Item>) -> Result<Item, Failure>
    ensures last { IfOk result (λ item. items.old.items ≡ items.new.items ++ (item ∷ [])) }
    ensures none { OnErr result ((result ≡ Err Items) × (items.old.items ≡ [])) }
{
    items.pop().ok_or(Failure::Items)
}

// What a command does to the stack, whose last item is at the end.
fn act(heap: Global, items: &mut Vec<Item>, taken: Command) -> Result<(), Failure>
    ensures tree { OnOk result ((x : Context) → trees.stack x items.new.items ≡ puts x (view.command taken.entry) (trees.stack x items.old.items)) }
    ensures kinds { Allows result (view.command taken.entry) items.old.items items.new.items }
{
    let item = match taken {
        Command::Pair { pair } => Item::Target(Target::Pair(pair)),
        Command::Constant { decision } => Item::Policy(Policy::Always(decision)),
        Command::Change { change } => {
            let item = popped(items)?;
            changed(heap, change, item)?
        }
        Command::Combine { operator } => {
            let second = popped(items)?;
            let first = popped(items)?;
            combined(heap, operator, first, second)?
        }
        Command::Guard => {
            let policy = popped(items)?;
            let target = popped(items)?;
            guarded(heap, target, policy)?
        }
        _ => return Ok(()),
    };
    items.push(item)?;
    Ok(())
}

// The tree of the policy of a file that reads well.
#[tactic(auto, using(crate::proofs::Allowing::needs, crate::proofs::Allowing::not_left, crate::proofs::Allowing::none_left, crate::proofs::Allowing::target_left))]
pub(crate) fn formula(heap: Global, file: &[u8]) -> Result<Policy, Failure>
    ensures tree { Builds result (reads file.now) }
    ensures memory { NeedsMemoryAlone result (reads file.now) }
{
    let mut items = Vec::new(heap);
    for command in Commands::of(file) {
        act(heap, &mut items, command)?;
    }
    match popped(&mut items)? {
        Item::Policy(policy) => Ok(policy),
        Item::Target(_) => Err(Failure::Items),
    }
}
