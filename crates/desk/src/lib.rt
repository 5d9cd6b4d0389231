// A desk to step the tables, once the sheet is read: made fresh, and moved on by one direction.
#![tactic(auto)]

ghost use Rattle.std.specs.Prelude.{◌≡◌};
ghost use Rattle.model.specs.declared.Refusal.TheVariants.{BadDirectionOrDesk};
ghost use Rattle.model.specs.Reading.{refuse◌when◌else◌, proper};
ghost use Rattle.model.specs.Compose.{initial};
ghost use Rattle.model.specs.Choice.{IsTables, chosen};
ghost use Rattle.model.specs.Desk as model;
ghost use Rattle.architecture.specs.Struct.{IsProper, architecture_of, processes_in};
ghost use Rattle.composition.specs.Struct.{composed_of};

use architecture::Architecture;
use composition::Composed;
use model::{Desk, Refusal, Stepped};

// The desk with this composed state on it: the places of processes that the sheet lacks stay.
fn showing(a: Architecture, desk: Desk, t: Composed) -> Desk
    requires { IsProper a }
    ensures { result ≡ model.showing desk (composed_of a.processes t) }
{
    let n = a.processes;
    let mut states = desk.states;
    for i in 0..n {
        states[i] = t.process_state(i);
    }
    Desk {
        states,
        environment: t.environment,
    }
}

// Of a proper sheet: its processes are in state 0, and the mask is the root mask.
pub fn fresh_for(a: Architecture, desk: Desk) -> Desk
    requires { IsProper a }
    ensures { result ≡ model.showing desk (initial (architecture_of a)) }
{
    showing(a, desk, Composed::initial(a))
}

// A process is in a state at or above its bound.
fn is_too_high(a: Architecture, t: Composed) -> bool
    requires { IsProper a }
    ensures { result ≡ model.too_high (processes_in a) (composed_of a.processes t).states }
{
    for i in 0..a.processes {
        let x = t.process_state(i);
        if a.bound_of(i) <= x.0 as usize {
            return true;
        }
    }
    false
}

// 14: the direction or the mask has a bit outside the environment variables, or a state is too high.
fn misfits(a: Architecture, t: Composed, direction: u8) -> bool
    requires { IsProper a }
    ensures { result ≡ model.desk_fault (architecture_of a) (composed_of a.processes t) direction }
{
    let directions = a.directions();
    if directions <= direction as usize {
        return true;
    }
    if directions <= t.environment as usize {
        return true;
    }
    is_too_high(a, t)
}

// Of the tables of a choice: the desk after the step, and its label; or 14.
fn step_tables(
    a: Architecture,
    tables: &[u8],
    desk: Desk,
    direction: u8,
) -> Result<Stepped, Refusal>
    requires proper { IsProper a }
    requires tables { IsTables (architecture_of a) (chosen (architecture_of a) tables.now) }
    ensures { model.after_step result desk
        ≡ model.step_by (architecture_of a)
        (refuse BadDirectionOrDesk when model.desk_fault (architecture_of a) (model.on_desk (architecture_of a) desk) direction else proper (chosen (architecture_of a) tables.now))
        desk direction }
{
    let states = desk.states;
    let t = Composed {
        states,
        environment: desk.environment,
    };
    if misfits(a, t, direction) {
        return Err(Refusal::BadDirectionOrDesk);
    }
    let next = t.step(a, tables, direction);
    Ok(Stepped {
        label: next.label(a, tables),
        desk: showing(a, desk, next),
    })
}

// Of a proper sheet: the book is read, and the desk moved on by one direction.
pub fn step_for(a: Architecture, book: &[u8], desk: Desk, direction: u8) -> Result<Stepped, Refusal>
    requires { IsProper a }
    ensures { model.after_step result desk ≡ model.step_by (architecture_of a) (model.choice_for (architecture_of a) book.now desk direction) desk direction }
{
    let tables = book::read_for(a, book)?;
    step_tables(a, &tables, desk, direction)
}
