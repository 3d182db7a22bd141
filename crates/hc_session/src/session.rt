ghost use Rattle.std.specs.Prelude.{◌≡◌, ◌<◌, ◌-◌, ◌^◌, [], ◌∷◌, ◌++◌, true, false, length, IfOk, OnOk, OnErr};
ghost use Rattle.hc_layout.specs.Shape.{IsShape};
ghost use Rattle.hc_compiler.specs.Jobs.{is_lent};
ghost use Rattle.hc_modes.specs.Admitting.{ConstantsStay};
ghost use Rattle.hc_session.specs.Begins.{Begins, WantsToBegin};
ghost use Rattle.hc_session.specs.Fresh.{IsNew};
ghost use Rattle.hc_session.specs.Jobs.{IsNotLent};
ghost use Rattle.hc_session.specs.Logging.{mark_at};
ghost use Rattle.hc_session.specs.Plain.{HasJobNumber, HasSiteNumber, IsServed};
ghost use Rattle.hc_session.specs.State.{Does, Stands, Wants, answer_since};
ghost use Rattle.hc_session.specs.Tables.{HasNumbers};

use crate::Scripted;
use crate::begun::{Begun, begin};
use crate::serve::attend;
use hc_access::entries_stay_good;
use hc_compiler::Compiler;
use hc_heap::{Pace, forms_are_kept};
use hc_installed::{
    breaks_are_first, installed_are_right, new_sites_have_no_plan, plans_are_few,
    quiet_breaks_no_plan,
};
use hc_layout::{Region, Shape};
use hc_objects::{Objects, fields_stay_honest, prototypes_stay_calm};
use hc_report::{Log, Mark, Marks};
use hc_script::Command;
use hc_sites::Sites;
use hc_soundness::{borne_names_live, objects_rest};
use hc_value::{Memory, Reply};
use std::alloc::Global;
use std::marker::Model;

/// The objects, the sites, the jobs, the log and all else that commands change, under a pace.
#[derive(Drop)]
pub struct Session<P: Pace> {
    objects: Objects<P>,
    sites: Sites,
    compiler: Compiler,
    log: Log,
    marks: Marks,
    shape: Shape,
    fresh: bool,
    lacking: bool,
    alloc: Global,
}

impl<P: Pace> Model for Session<P> {
    ghost use Rattle.hc_session.specs.Standing.{Standing};

    ghost Value = { Standing P };

    ghost use Rattle.hc_session.specs.Fresh.{IsSession};

    ghost view = { λ s. record { objects = s.objects; sites = s.sites; compiler = s.compiler; log = s.log.lines; marks = s.marks; fresh = s.fresh; lacking = s.lacking } };

    ghost invariant = { λ s. IsSession s.shape (record { objects = s.objects; sites = s.sites; compiler = s.compiler; log = s.log.lines; marks = s.marks; fresh = s.fresh; lacking = s.lacking }) };
}

impl Session<Scripted> {
    /// A session in which nothing was done.
    pub fn scripted(alloc: Global, shape: Shape) -> Result<Session<Scripted>, Memory>
        requires { IsShape shape }
        ensures untouched { IfOk result (λ session. IsNew session) }
        ensures shape { IfOk result (λ session. session.objects.heap.view.shape ≡ shape) }
        ensures fresh { IfOk result (λ session. session.fresh ≡ true) }
    {
        fields_stay_honest::<Scripted>();
        entries_stay_good::<Scripted>();
        Ok(Session {
            objects: Objects::new(alloc, shape, Scripted)?,
            sites: Sites::new(alloc),
            compiler: Compiler::new(alloc)?,
            log: Log::new(alloc),
            marks: Marks::new(alloc),
            shape,
            fresh: true,
            lacking: false,
            alloc,
        })
    }
}

impl<P: Pace> Session<P> {
    /// Whether no command was performed, and no caller asked for a job.
    pub fn fresh(&self) -> bool
        ensures fresh { result ≡ self.now.fresh }
        ensures untouched { result ≡ true → IsNew self.now }
    {
        self.fresh
    }

    /// Performs a command. After want of memory the tables are as they were; how they are kept may have moved, and an access of a
    /// site may have noted a map there, and discarded plans. No command is performed then any more.
    pub fn command(&mut self, command: &Command) -> Result<Reply, Memory>
        requires going { self.old.lacking ≡ false }
        requires served { IsServed command.now }
        requires numbers { HasNumbers command.now }
        requires room { HasSiteNumber (length self.old.sites) command.now }
        requires jobs { HasJobNumber self.old.compiler.started command.now }
        requires own { IsNotLent self.old.compiler.lent command.now }
        ensures done { IfOk result (λ reply. Does P.went self.old command.now (answer_since self.old reply self.new) self.new) }
        ensures wants { OnErr result (Wants P.went self.old command.now self.new) }
        ensures stands { Stands self.new.objects }
        ensures constants { ConstantsStay self.old.objects.heap.view.trail self.new.objects.heap.view.trail }
        ensures going { OnOk result (self.new.lacking ≡ false) }
        ensures fresh { self.new.fresh ≡ false }
    {
        breaks_are_first();
        quiet_breaks_no_plan();
        new_sites_have_no_plan();
        objects_rest();
        installed_are_right();
        borne_names_live();
        forms_are_kept();
        prototypes_stay_calm::<P>();
        plans_are_few();
        self.objects.stands();
        self.fresh = false;
        self.lacking = true;
        put_mark(&self.objects, &self.sites, &mut self.log, &mut self.marks)?;
        let served = attend(
            &mut self.objects,
            &mut self.sites,
            &mut self.compiler,
            &mut self.log,
            self.shape,
            command,
            self.alloc,
        );
        self.objects.stands();
        let reply = served?;
        self.lacking = false;
        Ok(reply)
    }

    /// Whether a command lacked memory, after which none is performed.
    pub fn lacking(&self) -> bool
        ensures { result ≡ self.now.lacking }
    {
        self.lacking
    }

    /// Asks for a job of a site, which its caller has from then on: the job, which is new, and a reader that begins here. It gets the
    /// next number exactly where it is started. After want of memory all is as it was, but for the mark where it was put.
    pub fn begin(&mut self, s: u32) -> Result<Begun, Memory>
        requires jobs { self.old.compiler.started < 2 ^ 32 - 1 }
        ensures begins { IfOk result (λ begun. Begins self.old s begun self.new) }
        ensures wants { OnErr result (WantsToBegin self.old self.new) }
        ensures stands { Stands self.new.objects }
        ensures going { self.new.lacking ≡ self.old.lacking }
        ensures fresh { self.new.fresh ≡ false }
    {
        self.objects.stands();
        self.fresh = false;
        let marked = put_mark(&self.objects, &self.sites, &mut self.log, &mut self.marks);
        marked?;
        let begun = begin(
            &mut self.objects,
            &self.sites,
            &mut self.compiler,
            self.shape,
            s,
        );
        self.objects.stands();
        begun
    }

    /// Whether a caller has the job of a number, which `begin` handed out.
    pub fn lent(&self, j: u32) -> bool
        ensures lent { result ≡ is_lent self.now.compiler.lent j }
    {
        self.compiler.is_lent(j)
    }

    /// How many sites were declared.
    pub fn sites(&self) -> u32
        ensures { result ≡ length self.now.sites }
    {
        self.sites.len()
    }

    /// How many jobs were started.
    pub fn started(&self) -> u32
        ensures { result ≡ self.now.compiler.started }
    {
        self.compiler.started()
    }

    /// The lines so far, each with how many stores there were before it.
    pub fn log(&self) -> &Log
        ensures { result.now.lines ≡ self.now.log }
    {
        &self.log
    }

    /// What stood when each command began, and each call that asks for a job.
    pub fn marks(&self) -> &Marks
        ensures { result.now ≡ self.now.marks }
    {
        &self.marks
    }

    /// What holds of the objects, and where nothing was done.
    pub fn stands(&self)
        ensures stands { Stands self.now.objects }
        ensures fits { P.fits self.now.objects.heap.pace self.now.objects.heap.desk.board }
        ensures untouched { self.now.fresh ≡ true → IsNew self.now }
    {
        self.objects.stands();
    }

    // The allocator that the session was made with.
    pub(crate) fn allocator(&self) -> Global {
        self.alloc
    }
}

// Takes the memory for all that a command may put into the log, a line for each site and one of its own, and puts its mark.
fn put_mark<P: Pace>(
    objects: &Objects<P>,
    sites: &Sites,
    log: &mut Log,
    marks: &mut Marks,
) -> Result<(), Memory>
    ensures ok { OnOk result (marks.new ≡ marks.old ++ mark_at objects.now log.old.lines ∷ []) }
    ensures room { OnOk result (length sites.now < log.new.room) }
    ensures err { OnErr result (marks.new ≡ marks.old) }
    ensures lines { log.new.lines ≡ log.old.lines }
{
    log.reserve(u64::from(sites.len()) + 1)?;
    let mark = Mark {
        at: objects.writes(),
        met: objects.met(),
        lines: log.len(),
        slots: objects.used(Region::Slots),
    };
    marks.push(mark)?;
    Ok(())
}
