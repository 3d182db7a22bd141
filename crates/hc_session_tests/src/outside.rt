ghost use Rattle.hc_layout.specs.Shape.{IsShape};

use hc_layout::Shape;
use hc_script::{Bytes, Calls, Cuts, MemSink, MemSource, Status};
use hc_session::{Session, replay};
use std::alloc::{AllocError, Global};
use std::process::Abort;
use std::test::Fail;

// One replay: the program's words, the script, how it is cut, which calls fail, and what comes of it.
#[derive(Clone, Copy)]
struct Case {
    words: &'static [&'static str],
    script: &'static str,
    cut: usize,
    read_fails: u64,
    write_fails: u64,
    output: &'static str,
    status: Status,
}

const REPLAY: &[&str] = &["replay"];

const FIRST: &str = "new null\nset #0 x 1\nget #0 x\n";

const fn whole(script: &'static str, output: &'static str, status: Status) -> Case {
    Case {
        words: REPLAY,
        script,
        cut: 4096,
        read_fails: 0,
        write_fails: 0,
        output,
        status,
    }
}

fn words_of(alloc: Global, words: &[&str]) -> Result<Vec<String>, AllocError> {
    let mut all = Vec::new(alloc);
    for word in words {
        all.push(String::from_str(alloc, word)?)?;
    }
    Ok(all)
}

fn check(rt: &impl Abort, alloc: Global, shape: Shape, case: &Case) -> Result<(), Fail>
    requires { IsShape shape }
{
    let words = words_of(alloc, case.words)?;
    let bytes = Bytes::from_vec(case.script.as_bytes().to_vec(alloc)?);
    let cuts = Cuts::from_vec(vec![in alloc; case.cut; 64]?);
    let mut source = MemSource::new(
        bytes,
        cuts,
        Calls::from_vec(vec![in alloc; case.read_fails]?),
    );
    let mut sink = MemSink::new(alloc, Calls::from_vec(vec![in alloc; case.write_fails]?));
    let mut session = Session::scripted(alloc, shape)?;
    assert!(rt; session.fresh());
    let status = replay(&words, &mut source, &mut sink, &mut session);
    assert_eq!(rt; status, case.status, "{}", case.script);
    assert_eq!(rt; sink.bytes(), case.output.as_bytes(), "{}", case.script);
    Ok(())
}

#[test]
fn cuts_and_faults_leave_a_prefix(rt: HostRuntime) -> Result<(), Fail> {
    let cases = [
        Case {
            cut: 1,
            ..whole(FIRST, "= #0\n= true\n= 1\n", Status::Done)
        },
        Case {
            cut: 9,
            read_fails: 1,
            ..whole(FIRST, "! read\n", Status::ReadFault)
        },
        Case {
            cut: 9,
            read_fails: 2,
            ..whole(FIRST, "= #0\n! read\n", Status::ReadFault)
        },
        Case {
            cut: 11,
            read_fails: 3,
            ..whole(FIRST, "= #0\n= true\n! read\n", Status::ReadFault)
        },
        Case {
            write_fails: 1,
            ..whole(FIRST, "", Status::WriteFault)
        },
        Case {
            write_fails: 2,
            ..whole(FIRST, "= #0\n", Status::WriteFault)
        },
        Case {
            write_fails: 3,
            ..whole(FIRST, "= #0\n= true\n", Status::WriteFault)
        },
        Case {
            cut: 9,
            read_fails: 2,
            write_fails: 2,
            ..whole("new null\n", "= #0\n", Status::WriteFault)
        },
        Case {
            write_fails: 1,
            ..whole("set #0", "", Status::WriteFault)
        },
        Case {
            words: &["replay", "x"],
            write_fails: 1,
            ..whole(FIRST, "", Status::WriteFault)
        },
    ];
    for case in &cases {
        check(&rt, rt.alloc(), Shape::small(), case)?;
    }
    Ok(())
}

// Each read of single bytes fails in turn: the lines whose newline was read are answered.
#[test]
fn each_read_may_fail(rt: HostRuntime) -> Result<(), Fail> {
    let outputs = [
        (1, 9, "! read\n"),
        (10, 20, "= #0\n! read\n"),
        (21, 29, "= #0\n= true\n! read\n"),
        (30, 30, "= #0\n= true\n= 1\n! read\n"),
    ];
    for (first, last, output) in outputs {
        for read_fails in first..last + 1 {
            let case = Case {
                cut: 1,
                read_fails,
                ..whole(FIRST, output, Status::ReadFault)
            };
            check(&rt, rt.alloc(), Shape::small(), &case)?;
        }
    }
    Ok(())
}

// What a small shape has no room for.
#[test]
fn a_small_shape_runs_out_of_room(rt: HostRuntime) -> Result<(), Fail> {
    let cases = [
        whole(
            "new null\nnew null\nnew null\nnew null\nnew null\nnew null\nnew null\nnew null\nnew null\n",
            "= #0\n= #1\n= #2\n= #3\n= #4\n= #5\n= #6\n= #7\n= full\n",
            Status::Done,
        ),
        whole(
            "new null\nset #0 a 1\nset #0 b 2\nset #0 c 3\nshape #0\nset #0 d 4\nshape #0\nkeys #0\n",
            "= #0\n= true\n= true\n= true\n= fast 3\n= true\n= slow space\n= [a b c d]\n",
            Status::Done,
        ),
    ];
    for case in &cases {
        check(&rt, rt.alloc(), Shape::small(), case)?;
    }
    Ok(())
}

// What is done with objects whose map is deprecated, as long as there is room for one map, and what isn't: a refusal, and an object
// that is given as a value. The last object takes that room, and those that weren't migrated by then become slow.
const USED: &str =
    "new null\nset #0 x 1\nnew null\nset #1 x 5\nnew null\nset #2 x 5\nnew null\nset #3 x 5\nnew null\nset #4 x 5\nnew null\nset #5 x 5\nnew null\nset #6 x 5\nnew null\nset #7 x 5\nnew null\nset #8 x 5\nnew null\nset #9 x 5\nnew null\nset #10 x 5\nnew null\nset #11 x 5\nnew null\nset #12 x 5\nnew null\nset #13 x 5\nnew null\nset #14 x 5\nnew null\nset #15 x 5\nnew null\nset #16 x 5\nnew null\nsite load y\nset #0 x 5000000000\nsame #15 #99\nexec 0 #16 1\nget #1 x\nhas #2 y\nown #3 y\nkeys #4\nproto #5\nextensible #6\nsame #7 #8\nset #9 x 5\ndefine #10 x value=5\ndelete #11 y\nsetproto #12 null\nexec 0 #13\nset #17 o #14\nshape #1\nshape #2\nshape #3\nshape #4\nshape #5\nshape #6\nshape #7\nshape #8\nshape #9\nshape #10\nshape #11\nshape #12\nshape #13\nshape #14\nshape #15\nshape #16\nshape #17\n";

const ANSWERED: &str =
    "= #0\n= true\n= #1\n= true\n= #2\n= true\n= #3\n= true\n= #4\n= true\n= #5\n= true\n= #6\n= true\n= #7\n= true\n= #8\n= true\n= #9\n= true\n= #10\n= true\n= #11\n= true\n= #12\n= true\n= #13\n= true\n= #14\n= true\n= #15\n= true\n= #16\n= true\n= #17\n= site 0\n= true\n= no object\n= wrong site\n= 5\n= false\n= undefined\n= [x]\n= null\n= true\n= true\n= true\n= true\n= true\n= true\n~ slow 0\n= undefined\n= true\n= fast 1\n= fast 1\n= fast 1\n= fast 1\n= fast 1\n= fast 1\n= fast 1\n= fast 1\n= fast 1\n= fast 1\n= fast 1\n= fast 1\n= fast 1\n= slow space\n= slow space\n= slow space\n= fast 1\n";

// What a migration, or a field that outgrows its layout, finds no room for.
#[test]
fn a_migration_may_find_no_room(rt: HostRuntime) -> Result<(), Fail> {
    let roomy = Shape {
        maps: 4,
        entries: 100,
        fields: 100,
        links: 100,
        objects: 100,
        slots: 100,
        cells: 100,
    };
    let cases = [
        (
            Shape { maps: 2, ..roomy },
            whole(
                "new null\nset #0 x 1\nset #0 x 5000000000\nshape #0\nget #0 x\n",
                "= #0\n= true\n= true\n= slow space\n= 5000000000\n",
                Status::Done,
            ),
        ),
        (
            Shape { maps: 3, ..roomy },
            whole(
                "new null\nset #0 x 1\nnew null\nset #1 x 5\nset #0 x 5000000000\nget #1 x\nshape #1\nshape #0\n",
                "= #0\n= true\n= #1\n= true\n= true\n= 5\n= slow space\n= fast 1\n",
                Status::Done,
            ),
        ),
        (roomy, whole(USED, ANSWERED, Status::Done)),
    ];
    for (shape, case) in &cases {
        check(&rt, rt.alloc(), *shape, case)?;
    }
    Ok(())
}
