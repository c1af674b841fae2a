use super::read;
use statements::{Fault, Reason};
use std::alloc::Global;
use std::test::Fail;

fn refused(heap: Global, text: &[u8], line: usize, reason: Reason) -> Result<(), Fail> {
    match read(heap, text) {
        Ok(_) => Err(Fail::new("a text that was read")),
        Err(fault) => {
            if fault.line == line && fault.reason == reason {
                Ok(())
            } else {
                Err(Fail::new("another fault"))
            }
        }
    }
}

#[test]
fn words_are_refused(rt: HostRuntime) -> Result<(), Fail> {
    let heap = rt.alloc();
    refused(heap, b"# a comment\n\nlooks", 3, Reason::UnknownWord)?;
    refused(heap, b"supported", 1, Reason::MissingWord)?;
    refused(heap, b"sky 1", 1, Reason::ExtraWord)?;
    refused(heap, b"sky\xFF\xFE\n", 1, Reason::UnknownWord)?;
    refused(heap, b"row 62F220 2 1 -80 accept", 1, Reason::RowBeforeSky)?;
    refused(heap, b"card\nimage 00\n", 2, Reason::BoardAfterCall)
}

#[test]
fn numbers_are_refused(rt: HostRuntime) -> Result<(), Fail> {
    let heap = rt.alloc();
    refused(heap, b"supported C0800", 1, Reason::NotFourDigits)?;
    refused(heap, b"file 6F07 0 8", 1, Reason::NotAByte)?;
    refused(heap, b"file 6F07 080", 1, Reason::NotAByte)?;
    refused(
        heap,
        b"entry 6F07 0 18446744073709551616",
        1,
        Reason::NotUpTo(18446744073709551615),
    )?;
    refused(
        heap,
        b"sky\nrow 62F22 2 1 0 silent",
        2,
        Reason::NotSixDigits,
    )?;
    refused(
        heap,
        b"sky\nrow 62F220 256 1 0 silent",
        2,
        Reason::NotUpTo(255),
    )?;
    refused(
        heap,
        b"sky\nrow 62F220 2 1 -32769 silent",
        2,
        Reason::NotALevel,
    )
}

#[test]
fn answers_are_refused(rt: HostRuntime) -> Result<(), Fail> {
    let heap = rt.alloc();
    refused(
        heap,
        b"sky\nrow 62F220 2 1 -80 deny",
        2,
        Reason::NotAnAnswer,
    )?;
    refused(
        heap,
        b"sky\nrow 62F220 2 1 -80 cause",
        2,
        Reason::MissingWord,
    )?;
    refused(
        heap,
        b"sky\nrow 62F220 2 1 -80 silent x",
        2,
        Reason::ExtraWord,
    )?;
    refused(
        heap,
        b"sky\nrow 62F220 2 1 0 accept 62F210 62F210 62F210 62F210 62F210 62F210",
        2,
        Reason::TooManyCodes,
    )
}

#[test]
fn faults_are_told(rt: HostRuntime) -> Result<(), Fail> {
    let fault = Fault {
        line: 12,
        reason: Reason::NotUpTo(65535),
    };
    let told = fault.to_string(rt.alloc())?;
    assert!(rt; told.as_str() == "line 12: expected a number from 0 to 65535");
    Ok(())
}
