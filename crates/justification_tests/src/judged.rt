//! Rows of two terms, judged.

use crate::rows::{
    CHOICES, COMPARED_SUMS, HALVES, LEAST_VALUES, MASKS, ONE_STEP_OUTSIDE, Row, SHIFTS, SIZES,
    SUMS, TRUTHS,
};
use crate::terms::term;
use justify::{Instance, Method, justify};
use pm_term::BuildFault;
use std::alloc::Global;
use std::process::Abort;

/// Looks that each row has its method.
fn judge(rt: &impl Abort, alloc: Global, rows: &[Row]) -> Result<(), BuildFault> {
    for (at, left, right, method) in rows {
        let instance = Instance {
            left: term(alloc, left, at.ty())?,
            right: term(alloc, right, at.ty())?,
        };
        assert_eq!(rt;
            justify(alloc, &instance)?,
            *method,
            "{left} {right} {at:?}"
        );
    }
    Ok(())
}

#[test]
fn rows_of_sums(rt: HostRuntime) -> Result<(), BuildFault> {
    let alloc = rt.alloc();
    judge(&rt, alloc, &SUMS)?;
    judge(&rt, alloc, &COMPARED_SUMS)?;
    judge(&rt, alloc, &HALVES)?;
    judge(&rt, alloc, &LEAST_VALUES)
}

#[test]
fn rows_of_bits(rt: HostRuntime) -> Result<(), BuildFault> {
    let alloc = rt.alloc();
    judge(&rt, alloc, &MASKS)?;
    judge(&rt, alloc, &SHIFTS)?;
    judge(&rt, alloc, &TRUTHS)
}

#[test]
fn rows_of_parts(rt: HostRuntime) -> Result<(), BuildFault> {
    let alloc = rt.alloc();
    judge(&rt, alloc, &SIZES)?;
    judge(&rt, alloc, &CHOICES)?;
    judge(&rt, alloc, &ONE_STEP_OUTSIDE)
}
