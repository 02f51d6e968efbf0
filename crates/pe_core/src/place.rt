//! Where a program stands.

ghost use Rattle.std.specs.Prelude.{◌≡◌, ◌∷◌, ◌+◌, ◌<◌, ◌^◌, [], true, drop, IfSome, IfOk, MatchOption, IsSome, Some};
ghost use Rattle.fam_model.specs.Text as texts;
ghost use Rattle.pe_core.specs.Actions.{turn_of, in_order, are_there, finished, left_at, is_ready, make_calls, with_tries};
ghost use Rattle.pe_core.specs.Left.{next_after, after_reply};

use crate::action::{Action, fetch};
use fam_base::{NoMemory, Sequence, copy_of};
use fam_model::{Call, Reply};

/// The place in the order, the tries that are left of the spin there, and whether nothing more is called.
#[derive(Clone, Copy)]
pub struct Place {
    pub at: usize,
    pub tries: u32,
    pub over: bool,
}

/// What is done at a place of the order.
pub fn current<'a>(
    actions: &'a Sequence<Action>,
    order: &Sequence<usize>,
    at: usize,
) -> Option<&'a Action>
    requires { are_there actions.now order.now ≡ true }
    ensures turns { MatchOption result
        (in_order actions.now (drop at order.now) ≡ [])
        (λ a. in_order actions.now (drop at order.now) ≡ turn_of a.now ∷ in_order actions.now (drop (at + 1) order.now)) }
    ensures within { IfSome result (λ _. at + 1 < 2 ^ 64) }
{
    if at >= order.len() {
        return None;
    }
    match actions.get(*order.at(at)) {
        Some(action) => Some(action),
        None => None,
    }
}

/// The tries of the spin at a place, if there is one.
fn tries_at(actions: &Sequence<Action>, order: &Sequence<usize>, at: usize) -> u32
    requires { are_there actions.now order.now ≡ true }
    ensures { with_tries result (in_order actions.now (drop at order.now)) ≡ in_order actions.now (drop at order.now) }
{
    match current(actions, order, at) {
        Some(Action::Spin { tries, .. }) => *tries,
        Some(Action::Once(_)) | None => 0,
    }
}

/// The place, with all tries of a spin that is there.
pub fn place_at(actions: &Sequence<Action>, order: &Sequence<usize>, at: usize) -> Place
    requires there { are_there actions.now order.now ≡ true }
    requires calls { make_calls actions.now ≡ true }
    ensures left { left_at actions.now order.now result ≡ Some (in_order actions.now (drop at order.now)) }
    ensures ready { is_ready actions.now order.now result ≡ true }
{
    Place {
        at,
        tries: tries_at(actions, order, at),
        over: false,
    }
}

/// The spin ends with this reply.
fn ends_spin(value: i128, reply: &Reply) -> bool
    ensures { result ≡ texts.ends_spin value reply.now }
{
    match reply {
        Reply::Value(found) => *found == value,
        Reply::Error(_) => true,
        _ => false,
    }
}

fn is_crash(call: &Call) -> bool
    ensures { result ≡ texts.is_crash call.now }
{
    match call {
        Call::Crash => true,
        _ => false,
    }
}

/// The place after one more reply.
pub fn place_after(
    actions: &Sequence<Action>,
    order: &Sequence<usize>,
    place: Place,
    reply: &Reply,
) -> Place
    requires { is_ready actions.now order.now place ≡ true }
    ensures left { left_at actions.now order.now result ≡ after_reply (left_at actions.now order.now place) reply.now }
    ensures ready { is_ready actions.now order.now result ≡ true }
{
    if place.over {
        return place;
    }
    match current(actions, order, place.at) {
        None => over(place),
        Some(Action::Once(call)) => {
            if is_crash(call) {
                over(place)
            } else {
                place_at(actions, order, place.at + 1)
            }
        }
        Some(Action::Spin { value, .. }) => {
            if ends_spin(*value, reply) || place.tries <= 1 {
                place_at(actions, order, place.at + 1)
            } else {
                Place {
                    at: place.at,
                    tries: place.tries - 1,
                    over: false,
                }
            }
        }
    }
}

/// Nothing more is called.
fn over(place: Place) -> Place
    ensures { result ≡ finished place }
{
    Place {
        at: place.at,
        tries: place.tries,
        over: true,
    }
}

/// The call that is due at a place.
pub fn call_at(
    actions: &Sequence<Action>,
    order: &Sequence<usize>,
    place: Place,
) -> Result<Call, NoMemory>
    requires ready { is_ready actions.now order.now place ≡ true }
    requires due { IsSome (next_after (left_at actions.now order.now place) []) }
    ensures { IfOk result (λ asked. next_after (left_at actions.now order.now place) [] ≡ Some asked) }
{
    match current(actions, order, place.at) {
        None => Ok(Call::Leave),
        Some(Action::Once(call)) => copy_of(call),
        Some(
            Action::Spin {
                context,
                item,
                offset,
                width,
                ..
            },
        ) => Ok(fetch(*context, *item, *offset, *width)),
    }
}
