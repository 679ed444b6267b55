//! The live mesh whose requests carry tokens.
ghost use Rattle.std.specs.Prelude.{◌≡◌, [], None, IfOk, IsOk};
ghost use Rattle.geo_model.specs.Opening.{opening};
ghost use Rattle.geo_model.specs.Plans.{FactsFit, IsCommand};
ghost use Rattle.geo_session.specs.Session.{without_commands};
ghost use Rattle.geo_tags.specs.Calls.{Delivers, Nexts, Submits, SurelyCloses};
ghost use Rattle.geo_tags.specs.Tags.{token_at, waiting, EachWaits};

use crate::calls::{answer, next, submit};
use crate::due::Due;
use geo_base::{BioId, NoMemory};
use geo_log::DiskFacts;
use geo_model::{Command, DeviceResult, Found, Reply};
use geo_script::Plan;
use geo_session::{Session, SessionRefusal};
use slab::Slab;
use std::alloc::Global;
use std::marker::Model;

/// A live mesh whose requests carry a token of their caller. Contracts see the live mesh, the token of each tag, and
/// the tag of the next request.
#[derive(Drop)]
pub struct TaggedSession {
    session: Session,
    // The token of each tag that waits: a tag is a key of the slab.
    tokens: Slab<u64>,
}

impl Model for TaggedSession {
    ghost use Rattle.geo_tags.specs.Tags.{TaggedView, tagged_view, EachWaits};

    ghost Value = { TaggedView };

    ghost view = { λ t. tagged_view t.session t.tokens };

    ghost invariant = { λ t. EachWaits (tagged_view t.session t.tokens) };
}

impl TaggedSession {
    /// What the header of a plan begins, over disks of these sizes. The plan's commands aren't made, and no tag waits.
    pub fn begin(alloc: Global, plan: &Plan, disks: &DiskFacts) -> Result<TaggedSession, NoMemory>
        requires { FactsFit plan.now disks.now.items }
        ensures { IfOk result (λ tagged. tagged
            ≡ record {
              session = record {
                world = opening (without_commands plan.now) disks.now.items;
                steps = 0;
                generation = 0;
              };
              tokens = [];
              next_tag = 0;
            }) }
    {
        let session = Session::begin(alloc, plan, disks)?;
        Ok(TaggedSession {
            session,
            tokens: Slab::new(alloc),
        })
    }

    /// Makes a command, whose line is the next tag: Some where it is replied to at once, and None where it is a request
    /// that is on its way: the tag, which had no token, has this one then. `NotEnabled` as the session refuses it.
    /// `NoMemory` where memory is wanting, or the next tag is 2^32 or more, as where 2^32 tags wait. After each refusal
    /// all is as before. A close that is answered ok is never refused, if the next tag is smaller.
    pub fn submit(
        &mut self,
        actor: u32,
        command: Command,
        token: u64,
    ) -> Result<Option<Reply>, SessionRefusal>
        requires { IsCommand command }
        ensures free { token_at self.old self.old.next_tag ≡ None }
        ensures submits { Submits result self.old self.new actor command token }
        ensures sure { SurelyCloses self.old actor command → IsOk result }
    {
        submit(&mut self.session, &mut self.tokens, actor, command, token)
    }

    /// Makes the step that is due in the fixed order, and says what is due then: a disk is asked, or a request is
    /// replied to, whose tag then has no token; the mesh moved, or its graph may have `Changed`: that exactly after a
    /// step that is of the graph. `Idle` exactly where no step is due. Where memory is wanting all is as before;
    /// nothing else is refused.
    pub fn next(&mut self) -> Result<Due, NoMemory>
        ensures { Nexts result self.old self.new }
    {
        next(&mut self.session, &mut self.tokens)
    }

    /// What a disk answers for a bio that it was asked for. It isn't delivered exactly where the Deliver isn't enabled,
    /// and all is as before then; it never wants for memory.
    pub fn answer(&mut self, bio: BioId, got: DeviceResult) -> Result<(), Found>
        ensures { Delivers result self.old self.new bio got }
    {
        answer(&mut self.session, &self.tokens, bio, got)
    }

    /// The live mesh.
    pub fn session(&self) -> &Session
        ensures { result.now ≡ self.now.session }
    {
        &self.session
    }

    /// How many tags wait for their reply.
    pub fn waiting(&self) -> usize
        ensures { result ≡ waiting self.now }
    {
        self.tokens.len()
    }

    /// What holds at any moment: the line of each tag that has a token is unanswered once, no other line is, and the
    /// next tag has no token.
    pub fn each_waits(&self)
        ensures waits { EachWaits self.now }
        ensures free { token_at self.now self.now.next_tag ≡ None }
    {
        let _tag = self.tokens.vacant_key();
    }
}
