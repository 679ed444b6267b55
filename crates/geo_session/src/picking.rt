//! The step that is due in the fixed order.
ghost use Rattle.std.specs.Prelude.{◌≡◌};
ghost use Rattle.geo_model.specs.Order.{if_enabled, pick};

use crate::session::Session;
use geo_model::Step;

impl Session {
    /// The step that is due in the fixed order: the first enabled of Up, Take and Start of the smallest bio, Judge,
    /// Event, Reap and Wash. No actor has a command left, so none is due.
    #[tactic(auto, unfolding(geo_model::specs::Order::pick))]
    pub fn pick(&self) -> Option<Step>
        ensures { result ≡ pick self.now.world }
    {
        self.no_commands();
        if let Some(step) = self.first_up() {
            return Some(step);
        }
        if let Some(step) = self.first_to_take() {
            return Some(step);
        }
        if let Some(step) = self.first_down() {
            return Some(step);
        }
        if let Some(step) = if_enabled(self, Step::Judge) {
            return Some(step);
        }
        if let Some(step) = if_enabled(self, Step::Event) {
            return Some(step);
        }
        if let Some(step) = if_enabled(self, Step::Reap) {
            return Some(step);
        }
        if_enabled(self, Step::Wash)
    }
}

// A step, if seat 0 can make it.
fn if_enabled(session: &Session, step: Step) -> Option<Step>
    ensures { result ≡ if_enabled session.now.world step }
{
    if session.enabled(0, &step) {
        Some(step)
    } else {
        None
    }
}
