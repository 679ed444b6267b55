//! Events that are done, from the head of the queue (g_event(9)).
ghost use Rattle.std.specs.Prelude.{◌≡◌, List, None, false, OnOk, OnErr};
ghost use Rattle.geo_model.specs.declared.step.Entry.{Entry};
ghost use Rattle.geo_model.specs.declared.step.Event.TheVariants as heads;
ghost use Rattle.geo_model.specs.declared.step.Outcome.TheVariants as outcomes;
ghost use Rattle.geo_model.specs.Events.{is_not_tasted};
ghost use Rattle.geo_model.specs.Step.{event};
ghost use Rattle.geo_access.specs.Access.{granted_by};
ghost use Rattle.geo_state.specs.Holds.{Holds};
ghost use Rattle.geo_state.specs.Steps.{IsAgainst, Makes, SameWorld, Stands};
ghost use Rattle.geo_state.specs.World.{HasBytes};
ghost use Rattle.geo_moves.specs.Steps.{IsHead, HasDone};

use crate::handles::kill_at;
use geo_base::{NoMemory, ProvId};
use geo_life::{orphan, resize, spoil};
use geo_model::Event;
use geo_state::State;
use geo_taste::{begin, is_tasted};

/// An Event, where nothing is against it: the head of the queue is taken away and done. A NewProvider begins a taste
/// of its provider, if it is to be tasted; at a Spoil the geoms of marked consumers wither; at an Orphan handles become
/// dead, and the other geoms above wither; at a Resize the geoms wither that a taste made and that aren't in use, and
/// the provider is offered for taste again. Only a taste takes memory; after `NoMemory` all is as before.
pub fn event(state: &mut State) -> Result<(), NoMemory>
    requires stands { Stands state.old }
    requires due { IsAgainst event state.old None }
    ensures made { (log : List Entry) → OnOk result (Makes event log state.old state.new outcomes.Ran) }
    ensures kept { Holds state.new }
    ensures same { OnErr result (SameWorld state.old state.new) }
    ensures logged { (log : List Entry) → HasBytes log state.old → HasBytes log state.new }
{
    let head = due_head(state);
    do_head(state, head)
}

// The event that is done next.
fn due_head(state: &State) -> Event
    requires due { IsAgainst event state.now None }
    ensures head { IsHead state.now result }
    ensures none { state.now.taste ≡ None }
{
    let Some(head) = state.queue.head() else {
        unreachable!();
    };
    head
}

// The head of the queue is taken away and done.
fn do_head(state: &mut State, head: Event) -> Result<(), NoMemory>
    requires stands { Stands state.old }
    requires head { IsHead state.old head }
    requires none { state.old.taste ≡ None }
    ensures made { OnOk result (HasDone state.old state.new head) }
    ensures kept { Holds state.new }
    ensures same { OnErr result (SameWorld state.old state.new) }
    ensures requests { state.new.traffic ≡ state.old.traffic }
{
    match head {
        Event::NewProvider(prov) => offer(state, prov),
        Event::Spoil(prov) => {
            spoil_above(state, prov);
            Ok(())
        }
        Event::Orphan(prov) => {
            orphan_above(state, prov);
            Ok(())
        }
        Event::Resize(prov) => {
            outgrow_above(state, prov);
            Ok(())
        }
    }
}

// A Spoil is done.
fn spoil_above(state: &mut State, prov: ProvId)
    requires stands { Stands state.old }
    requires head { IsHead state.old (heads.Spoil prov) }
    ensures made { HasDone state.old state.new (heads.Spoil prov) }
    ensures kept { Holds state.new }
    ensures requests { state.new.traffic ≡ state.old.traffic }
{
    state.queue.drop_head();
    spoil(&mut state.topo, &mut state.queue, prov);
}

// An Orphan is done.
fn orphan_above(state: &mut State, prov: ProvId)
    requires stands { Stands state.old }
    requires head { IsHead state.old (heads.Orphan prov) }
    ensures made { HasDone state.old state.new (heads.Orphan prov) }
    ensures kept { Holds state.new }
    ensures requests { state.new.traffic ≡ state.old.traffic }
{
    kill_at(state, prov);
    state.queue.drop_head();
    orphan(&mut state.topo, &mut state.queue, prov);
}

// A Resize is done.
fn outgrow_above(state: &mut State, prov: ProvId)
    requires stands { Stands state.old }
    requires head { IsHead state.old (heads.Resize prov) }
    ensures made { HasDone state.old state.new (heads.Resize prov) }
    ensures kept { Holds state.new }
    ensures requests { state.new.traffic ≡ state.old.traffic }
{
    state.queue.drop_head();
    resize(&mut state.topo, &mut state.queue, prov);
}

// A NewProvider is done.
fn offer(state: &mut State, prov: ProvId) -> Result<(), NoMemory>
    requires stands { Stands state.old }
    requires head { IsHead state.old (heads.NewProvider prov) }
    requires none { state.old.taste ≡ None }
    ensures made { OnOk result (HasDone state.old state.new (heads.NewProvider prov)) }
    ensures kept { Holds state.new }
    ensures same { OnErr result (SameWorld state.old state.new) }
    ensures requests { state.new.traffic ≡ state.old.traffic }
{
    if is_tasted(&state.topo, prov) {
        return begin_taste(state, prov);
    }
    state.queue.drop_head();
    Ok(())
}

// A taste of a provider that is to be tasted begins.
fn begin_taste(state: &mut State, prov: ProvId) -> Result<(), NoMemory>
    requires stands { Stands state.old }
    requires head { IsHead state.old (heads.NewProvider prov) }
    requires none { state.old.taste ≡ None }
    requires tasted { is_not_tasted (granted_by state.old.topo) state.old.topo.topology prov ≡ false }
    ensures made { OnOk result (HasDone state.old state.new (heads.NewProvider prov)) }
    ensures kept { Holds state.new }
    ensures same { OnErr result (SameWorld state.old state.new) }
    ensures requests { state.new.traffic ≡ state.old.traffic }
{
    let taste = begin(&mut state.topo, prov)?;
    state.taste = Some(taste);
    state.queue.drop_head();
    Ok(())
}
