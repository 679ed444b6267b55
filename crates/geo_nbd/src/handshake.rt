//! The handshake: what is answered to a client's flags and options.
ghost use Rattle.std.specs.Prelude.{◌≡◌, [], IfOk};
ghost use Rattle.geo_nbd.specs.Handshake.{after_flags, answer, next_option, by_name, aborted, listed, structured, informed, gone, stay, reply};

use crate::export::{Export, export_asked, export_of};
use crate::field::u32_at;
use crate::numbers::{
    CLIENT_FIXED_NEWSTYLE, CLIENT_NO_ZEROES, MAX_OPTION_BYTES, OPTION_ABORT, OPTION_EXPORT_NAME,
    OPTION_GO, OPTION_INFO, OPTION_LIST, OPTION_STRUCTURED_REPLY, REPLY_ACK, REPLY_ERROR_INVALID,
    REPLY_ERROR_UNSUPPORTED,
};
use crate::option_head::OptionHead;
use crate::phase::{Agreed, Answer, Phase};
use crate::tell::{add_described, add_exports, add_reply, add_zeroes};
use geo_base::NoMemory;
use geo_text::Text;
use std::alloc::Global;

/// The phase after a client's flags, which end the session if one of them isn't known.
pub fn after_flags(bytes: &[u8; 4]) -> Phase
    ensures { result ≡ after_flags bytes.now }
{
    let flags = u32_at(bytes, 0);
    if CLIENT_FIXED_NEWSTYLE + CLIENT_NO_ZEROES < flags {
        return Phase::Ended;
    }
    Phase::Options(Agreed {
        no_zeroes: CLIENT_NO_ZEROES <= flags,
        structured: false,
    })
}

/// The head of an option that is answered. None where the magic number is another, or its data is above 4,352 bytes:
/// the session ends then, and the data isn't read.
pub fn next_option(bytes: &[u8; 16]) -> Option<OptionHead>
    ensures { result ≡ next_option bytes.now }
{
    let head = OptionHead::read(bytes)?;
    if head.len <= MAX_OPTION_BYTES {
        Some(head)
    } else {
        None
    }
}

/// A reply of this kind without data, and the next option may come.
fn stay(alloc: Global, agreed: Agreed, option: u32, kind: u32) -> Result<Answer, NoMemory>
    ensures { IfOk result (λ sent. sent ≡ stay agreed (reply option kind [])) }
{
    let mut sent = Text::new(alloc);
    add_reply(&mut sent, option, kind, &[])?;
    Ok(Answer {
        sent,
        next: Phase::Options(agreed),
    })
}

/// EXPORT_NAME.
fn by_name(alloc: Global, agreed: Agreed, found: Option<Export>) -> Result<Answer, NoMemory>
    ensures { IfOk result (λ sent. sent ≡ by_name agreed found) }
{
    let mut sent = Text::new(alloc);
    let Some(export) = found else {
        return Ok(Answer {
            sent,
            next: Phase::Ended,
        });
    };
    sent.add(&export.size.to_be_bytes())?;
    sent.add(&export.flags.to_be_bytes())?;
    add_zeroes(&mut sent, agreed)?;
    Ok(Answer {
        sent,
        next: Phase::Serving {
            export,
            structured: agreed.structured,
        },
    })
}

/// ABORT.
fn aborted(alloc: Global) -> Result<Answer, NoMemory>
    ensures { IfOk result (λ sent. sent ≡ aborted) }
{
    let mut sent = Text::new(alloc);
    add_reply(&mut sent, OPTION_ABORT, REPLY_ACK, &[])?;
    Ok(Answer {
        sent,
        next: Phase::Ended,
    })
}

/// LIST.
fn listed(
    alloc: Global,
    exports: &[Export],
    agreed: Agreed,
    bytes: &[u8],
) -> Result<Answer, NoMemory>
    ensures { IfOk result (λ sent. sent ≡ listed exports.now agreed bytes.now) }
{
    if bytes.len() != 0 {
        return stay(alloc, agreed, OPTION_LIST, REPLY_ERROR_INVALID);
    }
    let mut sent = Text::new(alloc);
    add_exports(&mut sent, exports)?;
    add_reply(&mut sent, OPTION_LIST, REPLY_ACK, &[])?;
    Ok(Answer {
        sent,
        next: Phase::Options(agreed),
    })
}

/// STRUCTURED_REPLY.
fn structured(alloc: Global, agreed: Agreed, bytes: &[u8]) -> Result<Answer, NoMemory>
    ensures { IfOk result (λ sent. sent ≡ structured agreed bytes.now) }
{
    if bytes.len() != 0 {
        return stay(alloc, agreed, OPTION_STRUCTURED_REPLY, REPLY_ERROR_INVALID);
    }
    let agreed = Agreed {
        no_zeroes: agreed.no_zeroes,
        structured: true,
    };
    stay(alloc, agreed, OPTION_STRUCTURED_REPLY, REPLY_ACK)
}

/// INFO.
fn informed(alloc: Global, agreed: Agreed, asked: Result<Export, u32>) -> Result<Answer, NoMemory>
    ensures { IfOk result (λ sent. sent ≡ informed agreed asked) }
{
    match asked {
        Ok(export) => {
            let mut sent = Text::new(alloc);
            add_described(&mut sent, OPTION_INFO, &export)?;
            Ok(Answer {
                sent,
                next: Phase::Options(agreed),
            })
        }
        Err(error) => stay(alloc, agreed, OPTION_INFO, error),
    }
}

/// GO.
fn gone(alloc: Global, agreed: Agreed, asked: Result<Export, u32>) -> Result<Answer, NoMemory>
    ensures { IfOk result (λ sent. sent ≡ gone agreed asked) }
{
    match asked {
        Ok(export) => {
            let mut sent = Text::new(alloc);
            add_described(&mut sent, OPTION_GO, &export)?;
            Ok(Answer {
                sent,
                next: Phase::Serving {
                    export,
                    structured: agreed.structured,
                },
            })
        }
        Err(error) => stay(alloc, agreed, OPTION_GO, error),
    }
}

/// The answer to an option with its data. `NoMemory` where memory is wanting, and nothing was answered then.
pub fn answer(
    alloc: Global,
    exports: &[Export],
    agreed: Agreed,
    option: u32,
    bytes: &[u8],
) -> Result<Answer, NoMemory>
    ensures { IfOk result (λ sent. sent ≡ answer exports.now agreed option bytes.now) }
{
    match option {
        OPTION_EXPORT_NAME => by_name(alloc, agreed, export_of(exports, bytes)),
        OPTION_ABORT => aborted(alloc),
        OPTION_LIST => listed(alloc, exports, agreed, bytes),
        OPTION_INFO => informed(alloc, agreed, export_asked(exports, bytes)),
        OPTION_GO => gone(alloc, agreed, export_asked(exports, bytes)),
        OPTION_STRUCTURED_REPLY => structured(alloc, agreed, bytes),
        _ => stay(alloc, agreed, option, REPLY_ERROR_UNSUPPORTED),
    }
}
