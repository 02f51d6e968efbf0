//! Which piece comes next on a stripe.

ghost use Rattle.std.specs.Prelude.{◌≡◌, ℕ, ◌<◌, true, false, MatchOption, map, slice_get};
ghost use Rattle.std.specs.List.{position_or_len};
ghost use Rattle.fam_model.specs.Lists.{is_some_and};
ghost use Rattle.fam_context.specs.Next.{lies_at, posts_on};
ghost use Rattle.fam_model.specs.Operations.{has_left};
ghost use Rattle.fam_context.specs.Order.{AreInOrder, frame_of};
ghost use Rattle.fam_context.specs.Sides.{IsSideOf};

use crate::side::Side;
use crate::words::may_come;
use fam_model::{Context, Operation};

fn lies_at(operation: &Operation, stripe: u32, j: usize) -> bool
    ensures { result ≡ lies_at operation.now stripe j }
{
    match operation.pieces.get(j) {
        Some(marked) => marked.piece.place.stripe == stripe,
        None => false,
    }
}

fn is_out(side: &Side, j: usize) -> bool
    ensures { result ≡ is_some_and (slice_get side.now.flags j) (λ flag. flag) }
{
    match side.flags.get(j) {
        Some(flag) => *flag,
        None => false,
    }
}

/// The first piece of the operation that may be posted to the stripe.
fn scan(
    context: &Context,
    first: usize,
    operation: &Operation,
    side: &Side,
    stripe: u32,
) -> Option<u32>
    requires side { IsSideOf operation.now side.now }
    requires order { AreInOrder context.now.epoch (map frame_of context.now.operations) }
    requires reached { first ≡ position_or_len has_left context.now.operations }
    ensures { MatchOption result ((j : ℕ) → posts_on context.now operation.now side.now.flags stripe j ≡ false) (λ j. (posts_on context.now operation.now side.now.flags stripe j ≡ true) × ((i : ℕ) → i < j → posts_on context.now operation.now side.now.flags stripe i ≡ false)) }
{
    for j in 0..operation.pieces.len() {
        if lies_at(operation, stripe, j)
            && !is_out(side, j)
            && may_come(context, first, operation, j)
        {
            return Some(j as u32);
        }
    }
    None
}

/// The first piece of the operation that may be posted to the stripe. An operation with no piece held is
/// passed over.
pub(crate) fn next_in(
    context: &Context,
    first: usize,
    operation: &Operation,
    side: &Side,
    stripe: u32,
) -> Option<u32>
    requires side { IsSideOf operation.now side.now }
    requires order { AreInOrder context.now.epoch (map frame_of context.now.operations) }
    requires reached { first ≡ position_or_len has_left context.now.operations }
    ensures { MatchOption result ((j : ℕ) → posts_on context.now operation.now side.now.flags stripe j ≡ false) (λ j. (posts_on context.now operation.now side.now.flags stripe j ≡ true) × ((i : ℕ) → i < j → posts_on context.now operation.now side.now.flags stripe i ≡ false)) }
{
    if side.counts.held == 0 {
        None
    } else {
        scan(context, first, operation, side, stripe)
    }
}
