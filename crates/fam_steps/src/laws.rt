//! What holds of steps.

ghost use Rattle.fam_steps.specs.Laws as laws;

/// The event that a step is for has the shape of the step.
pub fn the_event_of_a_step_has_its_shape()
    ensures { laws.EventsHaveShapes }
{}
