//! What holds of the links in a lawful trail. The functions do nothing: each has a law as its contract, for a proof that calls it.
ghost use Rattle.hc_links.specs.Laws.{ChildrenAreOpen, HeadsAreThere, LinksAreChained, LinksLead, LinkedAreUnstable, LinksAreKept, LinkedIsNewest, SameKeysAreEqual};

use hc_heap::{set_is_kept, written_is_kept};

pub fn links_are_chained()
    ensures law { LinksAreChained }
{
    written_is_kept();
}

pub fn heads_are_there()
    ensures law { HeadsAreThere }
{}

pub fn links_lead()
    ensures law { LinksLead }
{
    written_is_kept();
}

pub fn children_are_open()
    ensures law { ChildrenAreOpen }
{
    links_lead();
    same_keys_are_equal();
}

pub fn linked_are_unstable()
    ensures law { LinkedAreUnstable }
{
    set_is_kept();
}

pub fn links_are_kept()
    ensures law { LinksAreKept }
{
    written_is_kept();
}

pub fn linked_is_newest()
    ensures law { LinkedIsNewest }
{
    links_are_kept();
}

pub fn same_keys_are_equal()
    ensures law { SameKeysAreEqual }
{}
