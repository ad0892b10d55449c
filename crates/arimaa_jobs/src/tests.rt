//! Two seats of two jobs.
use crate::Jobs;
use std::test::Fail;

// Each job is claimed once, the count of jobs ends the claims, and the least reported job is seen
// by both seats.
#[test]
fn two_seats(rt: HostRuntime) -> Result<(), Fail> {
    let (jobs, mut first) = Jobs::new(rt.alloc(), 2)?;
    let mut second = jobs.split(&mut first);
    let none = jobs.least(&mut first);
    assert!(rt; none == 2);
    let one = jobs.claim(&mut first).ok_or("no job")?;
    let other = jobs.claim(&mut second).ok_or("no job")?;
    assert!(rt; one == 0 && other == 1);
    assert!(rt; jobs.claim(&mut second).is_none());
    assert!(rt; jobs.claim(&mut second).is_none());
    jobs.report(&mut second, other);
    assert!(rt; jobs.least(&mut first) == 1);
    jobs.report(&mut first, one);
    assert!(rt; jobs.least(&mut second) == 0);
    jobs.join(&mut first, second);
    assert!(rt; jobs.least(&mut first) == 0);
    Ok(())
}
