//! Jobs that callers ask for.
ghost use Rattle.std.specs.Prelude.{◌≡◌, ◌<◌, ◌-◌, ◌^◌, IfOk, OnErr};
ghost use Rattle.hc_session.specs.Begins.{IsBegun};

use hc_board::Reader;
use hc_compiler::{Compiler, OpenJob};
use hc_heap::Pace;
use hc_layout::Shape;
use hc_objects::Objects;
use hc_planner::Job;
use hc_sites::Sites;
use hc_value::Memory;

/// What a caller gets that asks for a job.
#[derive(Drop)]
pub enum Begun {
    /// The job, and the reader through which it is to read.
    Started(Job, Reader),
    /// The site isn't there.
    NoSite,
    /// As many jobs are open as may be.
    NoRoom,
}

/// Starts a job for a site and hands it to the caller, where the site is there, and there is room for a job more.
pub(crate) fn begin<P: Pace>(
    objects: &mut Objects<P>,
    sites: &Sites,
    compiler: &mut Compiler,
    shape: Shape,
    s: u32,
) -> Result<Begun, Memory>
    requires shape { shape ≡ objects.old.heap.view.shape }
    requires numbers { compiler.old.started < 2 ^ 32 - 1 }
    ensures answers { IfOk result (λ begun. IsBegun objects.old sites.now compiler.old s begun compiler.new) }
    ensures idle { OnErr result (compiler.new ≡ compiler.old) }
    ensures jobs { compiler.new.jobs ≡ compiler.old.jobs }
    ensures same { objects.new ≡ objects.old }
{
    if s >= sites.len() {
        return Ok(Begun::NoSite);
    }
    if !compiler.may_open() {
        return Ok(Begun::NoRoom);
    }
    let OpenJob { job, reader } = compiler.lend(objects, shape, sites, s)?;
    Ok(Begun::Started(job, reader))
}
