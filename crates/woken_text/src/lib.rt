// The text of a set of waiters. It takes any set.
// A slice, a position and what is written stay arguments: a struct with a lent slice would owe each function a clause more (`text`).
#![tactic(auto)]

ghost use Rattle.std.specs.Prelude.{◌≡◌, true};
ghost use Rattle.text.specs.Text.{put_all, put_end};
ghost use Rattle.woken_text.specs.Woken.{name_if, at_link, link_names, links_names, woken_names, comma_text, listed, first_after, woken_text};

use woken_set::{LinkWoken, WokenSet};

// Where the next name stands, and whether it is the first of all: the flag says whether a comma is owed, and not that `at` holds.
#[derive(Clone, Copy)]
struct Listing {
    at: usize,
    is_first: bool,
}

impl Listing {
    // A comma, but for the first name.
    #[tactic(auto, using(text::specs::Append::puts))]
    fn put_comma(self, out: &mut [u8]) -> usize
        ensures bytes { out.new ≡ put_all out.old self.at (comma_text self.is_first) }
        ensures next { result ≡ put_end out.old self.at (comma_text self.is_first) }
    {
        if self.is_first {
            return self.at;
        }
        text::put(out, self.at, b',')
    }

    // A waiter of the table.
    #[tactic(auto, using(text::specs::Append::puts, crate::specs::Laws::names))]
    fn put_name(self, out: &mut [u8], is_woken: bool, name: &[u8]) -> Listing
        ensures bytes { out.new ≡ put_all out.old self.at (listed self.is_first (name_if is_woken name.now)) }
        ensures next { result.at ≡ put_end out.old self.at (listed self.is_first (name_if is_woken name.now)) }
        ensures first { result.is_first ≡ first_after self.is_first (name_if is_woken name.now) }
    {
        if !is_woken {
            return self;
        }
        let n = self.put_comma(out);
        Listing {
            at: text::put_all(out, n, name),
            is_first: false,
        }
    }

    // A waiter of the link at an index.
    #[tactic(auto, using(text::specs::Append::puts, crate::specs::Laws::names))]
    fn put_name_at(self, out: &mut [u8], is_woken: bool, name: &[u8], i: usize) -> Listing
        ensures bytes { out.new ≡ put_all out.old self.at (listed self.is_first (name_if is_woken (at_link i name.now))) }
        ensures next { result.at ≡ put_end out.old self.at (listed self.is_first (name_if is_woken (at_link i name.now))) }
        ensures first { result.is_first ≡ first_after self.is_first (name_if is_woken (at_link i name.now)) }
    {
        if !is_woken {
            return self;
        }
        let l = self.put_name(out, true, name);
        Listing {
            at: number_text::put_behind(out, l.at, b'@', i as u64),
            is_first: false,
        }
    }

    // The four of a link.
    #[tactic(auto, using(text::specs::Append::puts, crate::specs::Laws::names), unfolding(crate::specs::Woken::link_names))]
    fn put_link(self, out: &mut [u8], w: LinkWoken, i: usize) -> Listing
        ensures bytes { out.new ≡ put_all out.old self.at (listed self.is_first (link_names w i)) }
        ensures next { result.at ≡ put_end out.old self.at (listed self.is_first (link_names w i)) }
        ensures first { result.is_first ≡ first_after self.is_first (link_names w i) }
    {
        let l = self.put_name_at(out, w.link_credit, b"link_credit", i);
        let l = l.put_name_at(out, w.acl_send_lock, b"acl_send_lock", i);
        let l = l.put_name_at(out, w.indication_slot, b"indication_slot", i);
        l.put_name_at(out, w.indication_cfm, b"indication_cfm", i)
    }

    // Those of every link, by its index.
    #[tactic(auto, using(text::specs::Append::puts, text::specs::Append::places, crate::specs::Laws::names), unfolding(crate::specs::Woken::links_names))]
    fn put_links(self, out: &mut [u8], w: WokenSet) -> Listing
        ensures bytes { out.new ≡ put_all out.old self.at (listed self.is_first (links_names w)) }
        ensures next { result.at ≡ put_end out.old self.at (listed self.is_first (links_names w)) }
        ensures first { result.is_first ≡ first_after self.is_first (links_names w) }
    {
        let mut l = self;
        for i in 0..16 {
            l = l.put_link(out, w.links[i], i);
        }
        l
    }

    // Every waiter's name.
    #[tactic(auto, using(text::specs::Append::puts, crate::specs::Laws::names))]
    fn put_names(self, out: &mut [u8], w: WokenSet) -> Listing
        ensures bytes { out.new ≡ put_all out.old self.at (listed self.is_first (woken_names w)) }
        ensures next { result.at ≡ put_end out.old self.at (listed self.is_first (woken_names w)) }
        ensures first { result.is_first ≡ first_after self.is_first (woken_names w) }
    {
        let l = self.put_name(out, w.central, b"central");
        let l = l.put_name(out, w.peripheral, b"peripheral");
        let l = l.put_name(out, w.disconnect, b"disconnect");
        l.put_links(out, w)
    }
}

// The waiters, or `-` for none; answers the position behind.
#[tactic(auto, using(text::specs::Append::puts, crate::specs::Laws::whole))]
pub fn put_woken(out: &mut [u8], at: usize, w: WokenSet) -> usize
    ensures bytes { out.new ≡ put_all out.old at (woken_text w) }
    ensures next { result ≡ put_end out.old at (woken_text w) }
{
    let l = Listing { at, is_first: true }.put_names(out, w);
    if l.is_first {
        return text::put(out, l.at, b'-');
    }
    l.at
}
