//! Steps, outcomes and entries of the log.
ghost use Rattle.std.specs.Prelude.{◌≡◌, IfOk};

use crate::listing::MeshList;
use geo_base::{BioCmd, BioId, ConsId, Errno, GeomId, HandleId, NoMemory, ProvId, SharedBytes};
use std::alloc::Global;

/// An event of the queue.
#[derive(Clone, Copy, Debug, PartialEq, Eq)]
pub enum Event {
    NewProvider(ProvId),
    Spoil(ProvId),
    Orphan(ProvId),
    Resize(ProvId),
}

/// The phase of a bio; `Busy` has the seat that took it.
#[derive(Clone, Copy, Debug, PartialEq, Eq)]
pub enum Phase {
    Down,
    Sent,
    Busy(u32),
    Waiting,
    Up,
    Done,
}

/// For whom a bio was made.
#[derive(Clone, Copy, Debug, PartialEq, Eq)]
pub enum Owner {
    Line { handle: HandleId, line: u32 },
    Taste,
    Child { parent: BioId, index: u32 },
}

/// How a bio ended.
#[derive(Debug, Drop)]
pub enum BioResult {
    Done,
    Bytes(SharedBytes),
    Failed(Errno),
}

impl BioResult {
    /// The same result.
    pub fn copy(&self, alloc: Global) -> Result<BioResult, NoMemory>
        ensures { IfOk result (λ copied. copied ≡ self.now) }
    {
        match self {
            BioResult::Done => Ok(BioResult::Done),
            BioResult::Bytes(bytes) => Ok(BioResult::Bytes(bytes.copy(alloc)?)),
            BioResult::Failed(errno) => Ok(BioResult::Failed(*errno)),
        }
    }
}

/// What a disk answered; `done` is how many sectors of the request were done before it failed.
#[derive(Debug, Drop)]
pub enum DeviceResult {
    Bytes(SharedBytes),
    Done,
    Failed { done: u32 },
}

impl DeviceResult {
    /// The same answer, whose bytes a reply takes over without a copy. Where memory is wanting they are copied then.
    pub fn share(self, alloc: Global) -> DeviceResult
        ensures { result ≡ self }
    {
        match self {
            DeviceResult::Bytes(bytes) => DeviceResult::Bytes(bytes.share(alloc)),
            DeviceResult::Done => DeviceResult::Done,
            DeviceResult::Failed { done } => DeviceResult::Failed { done },
        }
    }
}

/// A request to a disk, in sectors.
#[derive(Debug, Drop)]
pub struct Request {
    pub disk: u32,
    pub cmd: BioCmd,
    pub first: u64,
    pub count: u32,
    pub bytes: SharedBytes,
}

impl Request {
    /// The same request.
    pub fn copy(&self, alloc: Global) -> Result<Request, NoMemory>
        ensures { IfOk result (λ copied. copied ≡ self.now) }
    {
        Ok(Request {
            disk: self.disk,
            cmd: self.cmd,
            first: self.first,
            count: self.count,
            bytes: self.bytes.copy(alloc)?,
        })
    }
}

/// A step of the core.
#[derive(Debug, Drop)]
pub enum Step {
    Go { actor: u32 },
    Event,
    Judge,
    Reap,
    Wash,
    Start { bio: BioId },
    Take { disk: u32, bio: BioId },
    Deliver { bio: BioId, got: DeviceResult },
    Up { bio: BioId },
}

/// What was found where a step isn't enabled.
#[derive(Clone, Copy, Debug, PartialEq, Eq)]
pub enum Found {
    NoSuchBio,
    InPhase(Phase),
    NoSuchActor,
    NoCommand,
    OwnBiosOut { bio: BioId },
    Unsettled,
    QueueEmpty,
    TasteUnderWay,
    NoTaste,
    ReadOut { bio: BioId },
    NothingToReap,
    NothingToWash,
    OtherDisk { disk: u32 },
    DiskBusy { bio: BioId },
    OtherSeat { seat: u32 },
    Unfit,
}

/// The reply to a command.
#[derive(Debug, Drop)]
pub enum Reply {
    Ok,
    Bytes(SharedBytes),
    Refused(Errno),
    Listing(MeshList),
}

impl Reply {
    /// The same reply.
    pub fn copy(&self, alloc: Global) -> Result<Reply, NoMemory>
        ensures { IfOk result (λ copied. copied ≡ self.now) }
    {
        match self {
            Reply::Ok => Ok(Reply::Ok),
            Reply::Bytes(bytes) => Ok(Reply::Bytes(bytes.copy(alloc)?)),
            Reply::Refused(errno) => Ok(Reply::Refused(*errno)),
            Reply::Listing(list) => Ok(Reply::Listing(list.copy(alloc)?)),
        }
    }
}

/// What a step did.
#[derive(Debug, Drop)]
pub enum Outcome {
    Replied { line: u32, reply: Reply },
    Accepted { line: u32, bio: BioId },
    Reading { bio: BioId },
    Ran,
    Split { first: BioId, count: u32 },
    Queued { disk: u32 },
    Bounced,
    Asked(Request),
    Delivered,
    Gathered { parent: BioId, complete: bool },
    TasteBack,
}

impl Outcome {
    /// The same outcome.
    pub fn copy(&self, alloc: Global) -> Result<Outcome, NoMemory>
        ensures { IfOk result (λ copied. copied ≡ self.now) }
    {
        match self {
            Outcome::Replied { line, reply } => Ok(Outcome::Replied {
                line: *line,
                reply: reply.copy(alloc)?,
            }),
            Outcome::Accepted { line, bio } => Ok(Outcome::Accepted {
                line: *line,
                bio: *bio,
            }),
            Outcome::Reading { bio } => Ok(Outcome::Reading { bio: *bio }),
            Outcome::Ran => Ok(Outcome::Ran),
            Outcome::Split { first, count } => Ok(Outcome::Split {
                first: *first,
                count: *count,
            }),
            Outcome::Queued { disk } => Ok(Outcome::Queued { disk: *disk }),
            Outcome::Bounced => Ok(Outcome::Bounced),
            Outcome::Asked(request) => Ok(Outcome::Asked(request.copy(alloc)?)),
            Outcome::Delivered => Ok(Outcome::Delivered),
            Outcome::Gathered { parent, complete } => Ok(Outcome::Gathered {
                parent: *parent,
                complete: *complete,
            }),
            Outcome::TasteBack => Ok(Outcome::TasteBack),
        }
    }
}

/// An entry of the log: who made which step, and what it did.
#[derive(Debug, Drop)]
pub struct Entry {
    pub seat: u32,
    pub step: Step,
    pub outcome: Outcome,
}

/// What of a withering geom can go.
#[derive(Clone, Copy, Debug, PartialEq, Eq)]
pub enum WashWork {
    Provider(ProvId),
    Consumer(ConsId),
    Geom(GeomId),
}
