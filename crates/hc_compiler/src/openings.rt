//! New jobs.
ghost use Rattle.std.specs.Prelude.{◌≡◌, ◌<◌, length, slice_get, IfOk, IfSome};
ghost use Rattle.hc_planner.specs.Jobs.{IsOwn};
ghost use Rattle.hc_compiler.specs.Calls.{IsNewJob};

use crate::feedback::maps_in;
use hc_heap::Pace;
use hc_jobs::OpenJob;
use hc_layout::Shape;
use hc_objects::Objects;
use hc_planner::Job;
use hc_sites::Sites;
use hc_value::Memory;
use std::alloc::Global;

/// A new job for a site, with what the site has seen of maps so far, and a reader of its own.
pub(crate) fn begin<P: Pace>(
    alloc: Global,
    objects: &mut Objects<P>,
    shape: Shape,
    sites: &Sites,
    s: u32,
    number: u32,
) -> Result<OpenJob, Memory>
    requires shape { shape ≡ objects.old.heap.view.shape }
    requires site { s < length sites.now }
    ensures new { IfOk result (λ x. IfSome (slice_get sites.now s) (λ state. IsNewJob objects.old number s state x)) }
    ensures own { IfOk result (λ x. IsOwn x.job x.reader) }
    ensures number { IfOk result (λ x. x.job.id ≡ number) }
    ensures same { objects.new ≡ objects.old }
{
    objects.stands();
    let Some(what) = sites.site(s) else {
        unreachable!();
    };
    let feedback = sites.feedback(s);
    let maps = maps_in(feedback.maps);
    let job = Job::new(
        alloc,
        number,
        s,
        what,
        maps.as_slice(),
        feedback.mega,
        shape,
    )?;
    let reader = objects.reader()?;
    Ok(OpenJob { job, reader })
}
