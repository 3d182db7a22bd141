use hc_report::{Line, Log, Mark, Marks};
use std::test::Fail;

#[test]
fn lines_stand_in_their_order(rt: HostRuntime) -> Result<(), Fail> {
    let mut log = Log::new(rt.alloc());
    log.reserve(2)?;
    log.push(10, Line::Slow(0));
    log.push(12, Line::Cache(0));
    assert_eq!(rt; log.len(), 2);
    assert!(rt; matches!(log.at(0).copied(), Some((10, Line::Slow(0)))));
    assert!(rt; matches!(log.at(1).copied(), Some((12, Line::Cache(0)))));
    assert!(rt; log.at(2).is_none());
    Ok(())
}

fn mark(at: u64, slots: u32) -> Mark {
    Mark {
        at,
        met: 0,
        lines: at,
        slots,
    }
}

#[test]
fn marks_stand_in_their_order(rt: HostRuntime) -> Result<(), Fail> {
    let mut marks = Marks::new(rt.alloc());
    marks.push(mark(0, 0))?;
    marks.push(mark(7, 3))?;
    assert_eq!(rt; marks.len(), 2);
    assert!(rt;
        matches!(
            marks.at(0).copied(),
            Some(Mark {
                at: 0,
                met: 0,
                lines: 0,
                slots: 0
            })
        )
    );
    assert!(rt;
        matches!(
            marks.at(1).copied(),
            Some(Mark {
                at: 7,
                met: 0,
                lines: 7,
                slots: 3
            })
        )
    );
    assert!(rt; marks.at(2).is_none());
    Ok(())
}
