use hc_plan::{Cases, Deps, Op, Plan, Site};
use hc_sites::{CacheWay, Cached, Feedback, Sites};
use std::alloc::Global;
use std::test::Fail;

/// What happens at a site.
#[derive(Clone, Copy)]
enum Seen {
    Note(u32),
    Forget(u32),
}

fn see(sites: &mut Sites, s: u32, seen: Seen) {
    if s < sites.len() {
        match seen {
            Seen::Note(map) => sites.note(s, map),
            Seen::Forget(map) => sites.forget(s, map),
        }
    }
}

fn seen_by(sites: &Sites, s: u32) -> Option<Feedback> {
    if s < sites.len() {
        Some(sites.feedback(s))
    } else {
        None
    }
}

fn two_sites(alloc: Global) -> Result<Sites, Fail> {
    let mut sites = Sites::new(alloc);
    sites.declare(Site {
        op: Op::Load,
        name: 3,
    })?;
    sites.declare(Site {
        op: Op::Store,
        name: 4,
    })?;
    Ok(sites)
}

#[test]
fn a_site_keeps_four_maps_in_their_order(rt: HostRuntime) -> Result<(), Fail> {
    let mut sites = two_sites(rt.alloc())?;
    let steps = [
        (Seen::Note(8), [Some(8), None, None, None], false),
        (Seen::Note(5), [Some(8), Some(5), None, None], false),
        (Seen::Note(8), [Some(8), Some(5), None, None], false),
        (Seen::Note(6), [Some(8), Some(5), Some(6), None], false),
        (Seen::Forget(5), [Some(8), Some(6), None, None], false),
        (Seen::Forget(7), [Some(8), Some(6), None, None], false),
        (Seen::Note(7), [Some(8), Some(6), Some(7), None], false),
        (Seen::Note(5), [Some(8), Some(6), Some(7), Some(5)], false),
        (Seen::Note(6), [Some(8), Some(6), Some(7), Some(5)], false),
        (Seen::Note(9), [Some(8), Some(6), Some(7), Some(5)], true),
        (Seen::Forget(8), [Some(6), Some(7), Some(5), None], true),
        (Seen::Note(6), [Some(6), Some(7), Some(5), None], true),
    ];
    let untouched = Feedback {
        maps: [None; 4],
        mega: false,
    };
    for (seen, maps, mega) in steps.iter() {
        see(&mut sites, 1, *seen);
        let expected = Feedback {
            maps: *maps,
            mega: *mega,
        };
        assert!(rt; seen_by(&sites, 1) == Some(expected));
        assert!(rt; seen_by(&sites, 0) == Some(untouched));
    }
    Ok(())
}

fn fill(sites: &mut Sites, s: u32, entry: Cached) {
    if s < sites.len() {
        sites.fill(s, entry);
    }
}

#[test]
fn a_site_keeps_the_last_entry_of_its_cache(rt: HostRuntime) -> Result<(), Fail> {
    let mut sites = two_sites(rt.alloc())?;
    let entries = [
        Cached {
            map: 1,
            way: CacheWay::Own(0),
            cell: None,
        },
        Cached {
            map: 2,
            way: CacheWay::Holder(5, 3),
            cell: Some(4),
        },
        Cached {
            map: 2,
            way: CacheWay::Absent,
            cell: Some(4),
        },
    ];
    assert!(rt; sites.cache(0) == None);
    for entry in entries.iter() {
        fill(&mut sites, 0, *entry);
        assert!(rt; sites.cache(0) == Some(*entry));
    }
    assert!(rt; sites.cache(1) == None);
    assert!(rt; sites.cache(2) == None);
    Ok(())
}

fn plan(alloc: Global, site: u32, name: u32) -> Plan {
    Plan {
        site,
        op: Op::Load,
        name,
        cases: Cases::from_vec(Vec::new(alloc)),
        deps: Deps::from_vec(Vec::new(alloc)),
    }
}

fn install(sites: &mut Sites, s: u32, plan: Plan) {
    if s < sites.len() {
        sites.install(s, plan);
    }
}

fn discard(sites: &mut Sites, s: u32) {
    if s < sites.len() {
        sites.discard(s);
    }
}

// The name of a site's plan.
fn planned(sites: &Sites, s: u32) -> Option<u32> {
    Some(sites.plan_of(s)?.name)
}

#[test]
fn a_plan_stays_until_another_or_its_discard(rt: HostRuntime) -> Result<(), Fail> {
    let alloc = rt.alloc();
    let mut sites = two_sites(alloc)?;
    install(&mut sites, 1, plan(alloc, 1, 20));
    install(&mut sites, 1, plan(alloc, 1, 30));
    assert_eq!(rt; planned(&sites, 1), Some(30));
    assert_eq!(rt; planned(&sites, 0), None);
    discard(&mut sites, 1);
    assert_eq!(rt; planned(&sites, 1), None);
    assert!(rt;
        matches!(
            sites.site(1),
            Some(Site {
                op: Op::Store,
                name: 4
            })
        )
    );
    assert!(rt; sites.site(2).is_none());
    Ok(())
}
