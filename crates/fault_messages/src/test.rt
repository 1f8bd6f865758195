//! Why a text is no test, or has no verdict.

ghost use Rattle.std.specs.Prelude.{IfOk};
ghost use Rattle.std.specs.String.{string_bytes};
ghost use Rattle.fault_messages.specs.Told.{TellsTest, IsMessageAlone};

use crate::left_out::left_out_sentence;
use crate::names::name_sentence;
use crate::orders::order_sentence;
use crate::syntax::syntax_sentence;
use crate::text::text_trouble;
use litmus_c::TestFault;
use places::{message_at, message_without_place};
use std::alloc::{AllocError, Global};
use test_places::place_of;
use wb_text::{Dialect, TextFault, tokens};

/// Why a test has no verdict, though it is one: it is too large.
pub fn space_trouble(alloc: Global, path: &str, label: &str) -> Result<String, AllocError>
    ensures { IfOk result (λ s. IsMessageAlone path.now label.now (string_bytes s)) }
{
    message_without_place(
        alloc,
        path,
        label,
        "the test is too large: a thread has at most 4096 runs, and all of them 4294967296 candidates; take loads, stores or branches away",
    )
}

/// Why a text is no test, at the first place at which it breaks the rule.
pub fn test_fault(
    alloc: Global,
    path: &str,
    text: &[u8],
    fault: &TestFault,
) -> Result<String, AllocError>
    ensures { IfOk result (λ s. TellsTest path.now text.now fault.now (string_bytes s)) }
{
    if let TestFault::Text(cause) = fault {
        return text_trouble(alloc, path, text, Dialect::Litmus, fault.label(), *cause);
    }
    match place_of(alloc, text, fault)? {
        Some(offset) => {
            let sentence = sentence(alloc, text, fault, offset)?;
            message_at(alloc, path, text, offset, fault.label(), sentence.as_str())
        }
        None => message_without_place(alloc, path, fault.label(), limit_sentence(fault)),
    }
}

/// What is wrong at an offset, and what to do.
fn sentence(
    alloc: Global,
    text: &[u8],
    fault: &TestFault,
    offset: usize,
) -> Result<String, AllocError> {
    match tokens(alloc, text, Dialect::Litmus) {
        Ok(tokens) => match fault {
            TestFault::Syntax(_) => return syntax_sentence(alloc, text, &tokens, offset),
            TestFault::Unsupported(word) => return left_out_sentence(alloc, word.bytes()),
            TestFault::BadOrder => return order_sentence(alloc, text, &tokens, offset),
            TestFault::UnknownName | TestFault::PlainOnAtomic | TestFault::AtomicOnPlain => {
                return name_sentence(alloc, text, &tokens, fault, offset);
            }
            _ => return String::from_str(alloc, limit_sentence(fault)),
        },
        Err(TextFault::NoMemory) => return Err(AllocError),
        Err(_found) => return String::from_str(alloc, limit_sentence(fault)),
    }
}

/// What is wrong where a limit is passed.
fn limit_sentence(fault: &TestFault) -> &'static str {
    match fault {
        TestFault::TooDeep => {
            "this would nest 33 deep, and a test nests at most 32; take parentheses or blocks away"
        }
        TestFault::TooManyThreads => "this is the ninth thread, and a test has at most 8",
        TestFault::TooManyLocations => "this is the ninth location, and a test has at most 8",
        TestFault::TooManyEvents => {
            "with this there are more than 64 events: an initial write for each location, two for an exchange or an add, and else one for an access or a fence"
        }
        TestFault::TooManyValues => {
            "with this there are more than 16 values: 0, 1, the constants, and what adds make of them"
        }
        TestFault::ValueTooBig => "with this an add can make a value above 2147483647",
        _ => "memory ran out",
    }
}
