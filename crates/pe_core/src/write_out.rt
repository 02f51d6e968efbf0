//! Repeats written out.

ghost use Rattle.std.specs.Prelude.{◌≡◌, ◌++◌, ◌≤◌, [], ◌∷◌, true, length, drop, IfOk};
ghost use Rattle.std.specs.List.{repeat};
ghost use Rattle.fam_model.specs.declared.script.Statement.{Repeat};
ghost use Rattle.pe_core.specs.Actions.{turn_of, make_calls, Grows, GrowsByOne};
ghost use Rattle.pe_core.specs.Left.{makes_calls};

use crate::action::Action;
use fam_base::{NoMemory, Sequence, copy_of};
use fam_model::Statement;
use std::alloc::Global;

/// What a program does, each thing once, and the order in which it does them.
#[derive(Drop)]
pub struct Written {
    pub actions: Sequence<Action>,
    pub order: Sequence<usize>,
}

/// Appends what statements do.
#[cycle(writing)]
pub fn write_out(
    alloc: Global,
    written: Written,
    statements: &[Statement],
) -> Result<Written, NoMemory>
    requires { make_calls written.actions ≡ true }
    ensures { IfOk result (λ now. Grows written.actions written.order statements.now now.actions now.order) }
{
    let mut grown = written;
    for statement in statements {
        grown = write_statement(alloc, grown, statement)?;
    }
    Ok(grown)
}

#[cycle(writing)]
fn write_statement(
    alloc: Global,
    written: Written,
    statement: &Statement,
) -> Result<Written, NoMemory>
    requires { make_calls written.actions ≡ true }
    ensures { IfOk result (λ now. Grows written.actions written.order (statement.now ∷ []) now.actions now.order) }
{
    match statement {
        Statement::One(call) => {
            let grown = write_action(written, Action::Once(copy_of(call)?))?;
            Ok(grown)
        }
        Statement::Repeat { times, body } => {
            let grown = write_repeat(alloc, written, *times, body.as_slice())?;
            Ok(grown)
        }
        Statement::Spin {
            context,
            item,
            offset,
            width,
            value,
            tries,
        } => {
            if *tries == 0 {
                return Ok(written);
            }
            let spin = Action::Spin {
                context: *context,
                item: *item,
                offset: *offset,
                width: *width,
                value: *value,
                tries: *tries,
            };
            let grown = write_action(written, spin)?;
            Ok(grown)
        }
    }
}

/// Appends one action.
fn write_action(written: Written, action: Action) -> Result<Written, NoMemory>
    requires calls { make_calls written.actions ≡ true }
    requires one { makes_calls (turn_of action) ≡ true }
    ensures { IfOk result (λ now. GrowsByOne written.actions written.order (turn_of action) now.actions now.order) }
{
    let Written {
        mut actions,
        mut order,
    } = written;
    order.push(actions.len())?;
    actions.push(action)?;
    Ok(Written { actions, order })
}

/// Appends so many times what statements do.
#[cycle(writing)]
fn write_repeat(
    alloc: Global,
    written: Written,
    times: u32,
    body: &[Statement],
) -> Result<Written, NoMemory>
    requires { make_calls written.actions ≡ true }
    ensures { IfOk result (λ now. Grows written.actions written.order (Repeat times body.now ∷ []) now.actions now.order) }
{
    if times == 0 {
        return Ok(written);
    }
    let from = written.order.len();
    let Written { actions, order } = write_out(alloc, written, body)?;
    let order = repeated(alloc, order, from, times - 1)?;
    Ok(Written { actions, order })
}

/// Appends so many times more what stands from a place on. Nothing costs nothing.
#[tactic(auto, using(crate::proofs::Bodies::repeat_more))]
fn repeated(
    alloc: Global,
    order: Sequence<usize>,
    from: usize,
    times: u32,
) -> Result<Sequence<usize>, NoMemory>
    requires { from ≤ length order }
    ensures { IfOk result (λ now. now ≡ order ++ repeat times (drop from order)) }
{
    if from == order.len() {
        return Ok(order);
    }
    let (_, body) = order.as_slice().split_at(from);
    let body = Vec::from_slice(alloc, body)?;
    let mut all = order.into_vec();
    for _ in 0..times {
        all.extend_from_slice(body.as_slice())?;
    }
    Ok(Sequence::from_vec(all))
}
