// The stack of part four, as far as a reader keeps it: the kinds of its items.
ghost use Rattle.std.specs.Prelude.{◌≡◌, ◌≤◌, [], length, nat_le};
ghost use Rattle.std.specs.Option.{option_map};
ghost use Rattle.policy.specs.Commands.{two_alike, guarding, kinds_after, one_policy};
ghost use Rattle.policy.specs.View.{command, stack, stack_after};

use crate::Command;
use crate::kind::Kind;
use arrayvec::ArrayVec;

// How many items may stand on the stack.
const MOST_ITEMS: usize = 16;

// The kinds of the items, the last one pushed at the end.
#[derive(Drop)]
pub struct Kinds {
    items: ArrayVec<Kind, MOST_ITEMS>,
}

// What a command does to the stack.
#[derive(Clone, Copy)]
pub enum Effect {
    Keep,
    Push(Kind),
    // the two top items become one
    Join(Kind),
}

impl Kinds {
    pub(crate) fn none() -> Kinds
        ensures { stack result ≡ [] }
    {
        Kinds {
            items: ArrayVec::new(),
        }
    }

    fn combined(&self) -> Option<Effect>
        ensures { option_map (stack_after (stack self.now)) result ≡ two_alike (stack self.now) }
    {
        match self.items.as_slice() {
            [.., lower, upper] if lower == upper => Some(Effect::Join(*upper)),
            _ => None,
        }
    }

    fn guarded(&self) -> Option<Effect>
        ensures { option_map (stack_after (stack self.now)) result ≡ guarding (stack self.now) }
    {
        match self.items.as_slice() {
            [.., Kind::Target, Kind::Policy] => Some(Effect::Join(Kind::Policy)),
            _ => None,
        }
    }

    // What a command does; none where items are missing or of the wrong kind.
    pub(crate) fn effect(&self, taken: Command<'_>) -> Option<Effect>
        ensures { option_map (stack_after (stack self.now)) result ≡ kinds_after (command taken.entry) (stack self.now) }
    {
        match taken {
            Command::Pair { .. } => Some(Effect::Push(Kind::Target)),
            Command::Constant { .. } => Some(Effect::Push(Kind::Policy)),
            Command::Change { .. } => {
                if self.items.is_empty() {
                    return None;
                }
                Some(Effect::Keep)
            }
            Command::Combine { .. } => self.combined(),
            Command::Guard => self.guarded(),
            _ => Some(Effect::Keep),
        }
    }

    // Whether there is room for what a command does.
    pub(crate) fn has_room(&self, effect: Effect) -> bool
        ensures { result ≡ nat_le (length (stack_after (stack self.now) effect)) 16 }
    {
        !(self.items.is_full() && matches!(effect, Effect::Push(_)))
    }

    // Does what a command does.
    pub(crate) fn apply(&mut self, effect: Effect)
        requires { length (stack_after (stack self.old) effect) ≤ 16 }
        ensures { stack self.new ≡ stack_after (stack self.old) effect }
    {
        match effect {
            Effect::Keep => {}
            Effect::Push(kind) => self.items.push(kind),
            Effect::Join(kind) => {
                let _ = self.items.pop();
                let _ = self.items.pop();
                self.items.push(kind);
            }
        }
    }

    pub(crate) fn is_one_policy(&self) -> bool
        ensures { result ≡ one_policy (stack self.now) }
    {
        matches!(self.items.as_slice(), [Kind::Policy])
    }
}
