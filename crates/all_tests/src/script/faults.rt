//! How faults are printed.

use crate::cases::is_shown;
use crate::rows::expect;
use cat_model::ModelFault;
use program::OneFault;
use report::WriteFault;
use scripts::ServeFault;
use sessions::FinishCause;
use std::alloc::Global;
use wb_text::Name;

/// How each status is printed.
const STATUSES: &[(ServeFault, &str)] = &[
    (ServeFault::Read, "96 Read"),
    (ServeFault::Write, "97 Write"),
    (ServeFault::BadLine(3), "98 BadLine 3"),
    (
        ServeFault::Finish(FinishCause::MissingPass(8)),
        "99 Finish 91 MissingPass 8",
    ),
    (
        ServeFault::Finish(FinishCause::Mismatch(4)),
        "99 Finish 92 Mismatch 4",
    ),
    (ServeFault::NoMemory, "NoMemory"),
];

/// Whether a model of no file is printed so.
fn is_no_file_shown(alloc: Global) -> bool {
    match Name::new(alloc, b"a.cat") {
        Ok(name) => is_shown(
            alloc,
            &OneFault::Model(ModelFault::NoCat(name)),
            "61 NoCat a.cat",
        ),
        Err(_) => false,
    }
}

#[test]
fn statuses_print_their_numbers(rt: HostRuntime) {
    let alloc = rt.alloc();
    for (fault, wanted) in STATUSES {
        expect(&rt, wanted, is_shown(alloc, fault, wanted));
    }
    expect(&rt, "no_file_of_a_name", is_no_file_shown(alloc));
    let is_write_shown = is_shown(alloc, &WriteFault::Write, "95 Write");
    expect(&rt, "shown: 95 Write", is_write_shown);
    expect(
        &rt,
        "labels: 95 Write",
        WriteFault::Write.label() == "95 Write",
    );
    let missing = FinishCause::MissingPass(3).label();
    expect(&rt, "labels: 91 MissingPass", missing == "91 MissingPass");
    let mismatch = FinishCause::Mismatch(7).label();
    expect(&rt, "labels: 92 Mismatch", mismatch == "92 Mismatch");
}
