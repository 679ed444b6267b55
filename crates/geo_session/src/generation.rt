//! Whether what was made is of the graph: it may have changed geoms, providers, consumers, their counts or handles.
ghost use Rattle.std.specs.Prelude.{◌≡◌, ◌&&◌, ◌||◌};
ghost use Rattle.geo_session.specs.Generation.{is_graph_command, is_graph_step, is_taste_back, next_generation};
ghost use Rattle.geo_session.specs.Moves.{is_up_step};

use geo_model::{Command, Outcome, Step};

/// Whether a step works on the graph itself.
pub fn is_graph_step(step: &Step) -> bool
    ensures { result ≡ is_graph_step step.now }
{
    match step {
        Step::Event | Step::Judge | Step::Reap | Step::Wash => true,
        _ => false,
    }
}

/// Whether a step is an Up: of the graph is one by its outcome.
pub fn is_up(step: &Step) -> bool
    ensures { result ≡ is_up_step step.now }
{
    match step {
        Step::Up { .. } => true,
        _ => false,
    }
}

/// Whether a step with this outcome is of the graph: it works on it, or rises and brings a taste's read back.
pub fn is_of_graph(works: bool, rises: bool, outcome: &Outcome) -> bool
    ensures { result ≡ (works || (rises && is_taste_back outcome.now)) }
{
    match outcome {
        Outcome::TasteBack => works || rises,
        _ => works,
    }
}

/// Whether a command is of the graph: it is neither a request, nor does it wait or list.
pub fn is_graph_command(command: &Command) -> bool
    ensures { result ≡ is_graph_command command.now }
{
    match command {
        Command::Read { .. }
        | Command::Write { .. }
        | Command::Delete { .. }
        | Command::Flush(_)
        | Command::Label { .. }
        | Command::Relabel { .. }
        | Command::MarkConcat { .. }
        | Command::MarkStripe { .. }
        | Command::Sync
        | Command::Settle
        | Command::Mesh => false,
        _ => true,
    }
}

/// The generation after what was made.
pub fn next_generation(generation: u64, of_graph: bool) -> u64
    ensures { result ≡ next_generation generation of_graph }
{
    generation.wrapping_add(u64::from(of_graph))
}
