//! How a request goes further by the mesh's reply.
ghost use Rattle.std.specs.Prelude.{◌≡◌, Bool, IfOk};
ghost use Rattle.geo_model.specs.Plans.{IsShortName};
ghost use Rattle.geo_server.specs.Service.{IsFurther};
ghost use Rattle.geo_server.specs.declared.serving.Going.TheVariants as goings;
ghost use Rattle.geo_server.specs.Serving.{go_on};
ghost use Rattle.geo_server.specs.Whole.{IsAsked};

use crate::asked::Asked;
use crate::replies::add_reply;
use crate::serving::{Going, go_on, next_command};
use geo_base::{Name, NoMemory};
use geo_model::{Command, Reply};
use geo_text::Text;
use std::alloc::Global;

/// How a request goes further: with its next command, or by its reply.
#[derive(Drop)]
pub enum Further {
    Goes(Asked, Command),
    Ends(Text),
}

/// The next command of a request, with it.
fn with_command(alloc: Global, handle: Name, asked: Asked) -> Result<Further, NoMemory>
    requires asked { IsAsked asked }
    requires short { IsShortName handle }
    ensures { (structured : Bool) → IfOk result (λ f. IsFurther f handle structured (goings.Goes asked)) }
{
    let command = next_command(alloc, handle, &asked)?;
    Ok(Further::Goes(asked, command))
}

/// How a request goes further by the mesh's reply to its command.
pub fn carry_on(
    alloc: Global,
    handle: Name,
    structured: bool,
    asked: Asked,
    reply: Reply,
) -> Result<Further, NoMemory>
    requires asked { IsAsked asked }
    requires short { IsShortName handle }
    ensures { IfOk result (λ f. IsFurther f handle structured (go_on asked reply)) }
{
    match go_on(asked, reply)? {
        Going::Goes(next) => with_command(alloc, handle, next),
        Going::Ends(last, error) => {
            let mut sent = Text::new(alloc);
            add_reply(&mut sent, structured, &last, error)?;
            drop(last);
            Ok(Further::Ends(sent))
        }
    }
}
