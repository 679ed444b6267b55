//! The requests of a client that are out.
ghost use Rattle.std.specs.Prelude.{◌≡◌, [], None};
ghost use Rattle.geo_model.specs.Plans.{IsShortName};
ghost use Rattle.geo_server.specs.Service.{asked_at, asked_by, is_fua, Begins, RepliesTo};
ghost use Rattle.geo_server.specs.Whole.{IsAsked};

use crate::asked::Asked;
use crate::further::{Further, carry_on};
use crate::gathered::Gathered;
use crate::serving::next_command;
use geo_base::{BioCmd, Name, NoMemory, SharedBytes};
use geo_model::{Command, Reply};
use geo_nbd::Request;
use geo_text::Text;
use slab::Slab;
use std::alloc::Global;
use std::marker::Model;

/// A request has begun: the token that its commands carry, and the first of them.
#[derive(Drop)]
pub struct Begun {
    pub token: u64,
    pub command: Command,
}

/// What a reply of the mesh makes of a request.
#[derive(Drop)]
pub enum Replied {
    /// Its next command is to be made, under the same token.
    Goes(Command),
    /// These bytes are its reply.
    Ends(Text),
    /// No request has this token.
    Unknown,
}

/// A request is lost, since memory was wanting; its cookie.
#[derive(Clone, Copy, Debug, PartialEq, Eq)]
pub struct Lost {
    pub cookie: u64,
}

/// The requests of a client that are out, each under a token.
#[derive(Drop)]
pub struct Service {
    handle: Name,
    structured: bool,
    requests: Slab<Asked>,
}

impl Model for Service {
    ghost use Rattle.geo_server.specs.Service.{ServiceView, service_view, IsService};

    ghost Value = { ServiceView };

    ghost view = { λ s. service_view s.handle s.structured s.requests };

    ghost invariant = { λ s. IsService (service_view s.handle s.structured s.requests) };
}

/// Whether a flush is asked for behind the request.
fn is_fua(flags: u16) -> bool
    ensures { result ≡ is_fua flags }
{
    flags == 1 || flags == 3
}

/// A request as it begins.
fn asked_by(alloc: Global, request: &Request, cmd: BioCmd, bytes: SharedBytes) -> Asked
    ensures { result ≡ asked_by request.now cmd bytes }
{
    let len = match cmd {
        BioCmd::Flush => 0,
        _ => request.len,
    };
    Asked {
        cookie: request.cookie,
        cmd,
        offset: request.offset,
        len,
        done: 0,
        fua: is_fua(request.flags),
        bytes,
        got: Gathered::none(alloc),
    }
}

impl Service {
    /// None is out. All go through this handle of the mesh.
    pub fn new(alloc: Global, handle: Name, structured: bool) -> Service
        requires { IsShortName handle }
        ensures { result ≡ record { handle = handle; structured = structured; out = []; next_token = 0 } }
    {
        Service {
            handle,
            structured,
            requests: Slab::new(alloc),
        }
    }

    /// Whether replies are structured.
    pub fn structured(&self) -> bool
        ensures { result ≡ self.now.structured }
    {
        self.structured
    }

    /// A request begins, with the bytes that came behind it: it is out under the next token, which had none, and its
    /// first command is to be made. Where memory is wanting all is as before.
    pub fn begin(
        &mut self,
        alloc: Global,
        request: &Request,
        cmd: BioCmd,
        bytes: SharedBytes,
    ) -> Result<Begun, NoMemory>
        requires { IsAsked (asked_by request.now cmd bytes) }
        ensures free { asked_at self.old self.old.next_token ≡ None }
        ensures begins { Begins result self.old self.new (asked_by request.now cmd bytes) }
    {
        let vacant = self.requests.vacant_key();
        self.requests.reserve(1)?;
        let asked = asked_by(alloc, request, cmd, bytes);
        let command = next_command(alloc, self.handle, &asked)?;
        self.requests.insert_reserved(asked);
        Ok(Begun {
            token: vacant as u64,
            command,
        })
    }

    /// The mesh replied to the command under this token.
    pub fn replied(&mut self, alloc: Global, token: u64, reply: Reply) -> Result<Replied, Lost>
        ensures { RepliesTo result self.old self.new token (asked_at self.old token) reply }
    {
        let Some(asked) = self.requests.try_remove(token as usize) else {
            return Ok(Replied::Unknown);
        };
        let cookie = asked.cookie;
        match carry_on(alloc, self.handle, self.structured, asked, reply) {
            Ok(Further::Goes(next, command)) => {
                self.requests.insert_reserved(next);
                Ok(Replied::Goes(command))
            }
            Ok(Further::Ends(sent)) => Ok(Replied::Ends(sent)),
            Err(_) => Err(Lost { cookie }),
        }
    }
}
