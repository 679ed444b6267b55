//! Withering geoms that are washed away, part by part (g_wither_geom(9)).
ghost use Rattle.std.specs.Prelude.{◌≡◌, List, None};
ghost use Rattle.geo_model.specs.declared.step.Entry.{Entry};
ghost use Rattle.geo_model.specs.declared.step.Outcome.TheVariants as outcomes;
ghost use Rattle.geo_model.specs.declared.step.WashWork.TheVariants as works;
ghost use Rattle.geo_model.specs.Step.{wash_next};
ghost use Rattle.geo_state.specs.Holds.{Holds};
ghost use Rattle.geo_state.specs.Steps.{IsAgainst, Makes, Stands};
ghost use Rattle.geo_state.specs.World.{HasBytes};
ghost use Rattle.geo_moves.specs.Washing.{IsDue, HasWashed};

use crate::withered::{disk_of_geom, free_seat};
use geo_base::{ConsId, GeomId, ProvId};
use geo_life::wash_where;
use geo_model::WashWork;
use geo_state::State;

/// A Wash, where nothing is against it: of the withering geom with the smallest number of which anything can go, a
/// provider to which nothing is attached goes, with the events that name it, else a consumer that holds no count and
/// through which nothing is out, else the geom itself once it has neither. It takes no memory.
pub fn wash(state: &mut State)
    requires stands { Stands state.old }
    requires due { IsAgainst wash_next state.old None }
    ensures made { (log : List Entry) → Makes wash_next log state.old state.new outcomes.Ran }
    ensures kept { Holds state.new }
    ensures logged { (log : List Entry) → HasBytes log state.old → HasBytes log state.new }
{
    let work = due_work(state);
    take_part(state, work);
}

// What is washed next.
fn due_work(state: &State) -> WashWork
    requires stands { Stands state.now }
    requires due { IsAgainst wash_next state.now None }
    ensures { IsDue state.now result }
{
    let Some(work) = wash_where(&state.topo) else {
        unreachable!();
    };
    work
}

// A part goes.
fn take_part(state: &mut State, work: WashWork)
    requires stands { Stands state.old }
    requires due { IsDue state.old work }
    ensures made { HasWashed state.old state.new work }
    ensures kept { Holds state.new }
    ensures requests { state.new.traffic ≡ state.old.traffic }
{
    match work {
        WashWork::Provider(prov) => wash_provider(state, prov),
        WashWork::Consumer(cons) => wash_consumer(state, cons),
        WashWork::Geom(geom) => wash_geom(state, geom),
    }
}

// A provider goes.
fn wash_provider(state: &mut State, prov: ProvId)
    requires stands { Stands state.old }
    requires due { IsDue state.old (works.Provider prov) }
    ensures made { HasWashed state.old state.new (works.Provider prov) }
    ensures kept { Holds state.new }
    ensures requests { state.new.traffic ≡ state.old.traffic }
{
    geo_life::wash(&mut state.topo, &mut state.queue, WashWork::Provider(prov));
    state.providers -= 1;
}

// A consumer goes.
fn wash_consumer(state: &mut State, cons: ConsId)
    requires stands { Stands state.old }
    requires due { IsDue state.old (works.Consumer cons) }
    ensures made { HasWashed state.old state.new (works.Consumer cons) }
    ensures kept { Holds state.new }
    ensures requests { state.new.traffic ≡ state.old.traffic }
{
    geo_life::wash(&mut state.topo, &mut state.queue, WashWork::Consumer(cons));
}

// A geom goes; if it is one of a disk, no geom stands for the disk from now on.
fn wash_geom(state: &mut State, geom: GeomId)
    requires stands { Stands state.old }
    requires due { IsDue state.old (works.Geom geom) }
    ensures made { HasWashed state.old state.new (works.Geom geom) }
    ensures kept { Holds state.new }
    ensures requests { state.new.traffic ≡ state.old.traffic }
{
    let disk = disk_of_geom(&state.topo, geom);
    geo_life::wash(&mut state.topo, &mut state.queue, WashWork::Geom(geom));
    free_seat(state, disk);
}
