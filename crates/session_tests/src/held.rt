// Runs in which a thread is held until another one has gone on.
use crate::calls::{empty, ended_by, image_after};
use dn_shared::Gate;
use fingerprint::{Fingerprint, Sha1Print};
use std::sync::atomic::Ordering::SeqCst;
use std::sync::atomic::{AtomicBool, AtomicU64};
use std::test::Fail;
use std::thread;

// How often a thread that is held looks whether it may go on.
const LOOKS: u32 = 1_000_000;

// Looks until a number is so great, and tells whether it has become so.
fn has_come(number: &AtomicU64, wanted: u64) -> bool {
    for _ in 0..LOOKS {
        if number.load(SeqCst) >= wanted {
            return true;
        }
        thread::yield_now();
    }
    false
}

// An actor is held behind one of its events until another actor has made so many, or so many more.
#[derive(Drop)]
struct Hold {
    held: u32,
    behind: u32,
    other: u32,
    wanted: u64,
    more: bool,
    made: AtomicU64,
    gave_up: AtomicBool,
}

impl Hold {
    // Until the other one has made so many events.
    fn until(held: u32, behind: u32, other: u32, wanted: u64) -> Hold {
        Hold {
            held,
            behind,
            other,
            wanted,
            more: false,
            made: AtomicU64::new(0),
            gave_up: AtomicBool::new(false),
        }
    }

    // Until it has made so many more.
    fn for_more(held: u32, behind: u32, other: u32, wanted: u64) -> Hold {
        let mut hold = Hold::until(held, behind, other, wanted);
        hold.more = true;
        hold
    }

    fn last(&self) -> u64 {
        if self.more {
            self.made.load(SeqCst).saturating_add(self.wanted)
        } else {
            self.wanted
        }
    }

    fn has_held(&self) -> bool {
        !self.gave_up.load(SeqCst)
    }
}

impl Gate for Hold {
    fn between(&self, who: u32, event: u32) {
        if who == self.other {
            self.made.store(u64::from(event), SeqCst);
        }
        if who == self.held && event == self.behind && !has_come(&self.made, self.last()) {
            self.gave_up.store(true, SeqCst);
        }
    }
}

#[test]
fn two_clients_are_in_flight_at_once(rt: HostRuntime) -> Result<(), Fail> {
    let alloc = rt.alloc();
    let made = "create f\ncreate g\nwrite g 0 67676767\n";
    let image = image_after(alloc, empty(alloc)?, made)?;
    let gate = Hold::until(1, 2, 2, 1);
    let job = "client 1\nwrite f 0 61\nclient 2\nread g 0 4\n";
    let (status, text, _) = ended_by(&rt, alloc, image, Sha1Print, job, &gate)?;
    assert!(rt; gate.has_held());
    assert_eq!(rt; status, 0);
    let wanted = "o 42 1 0\n2 4 bytes 4 67676767\n1 2 done\nt 37 0 1\nt 37 1 0\nend 2 53\n";
    assert_eq!(rt; text.as_slice(), wanted.as_bytes());
    Ok(())
}

#[test]
fn the_daemon_shares_beside_a_client(rt: HostRuntime) -> Result<(), Fail> {
    let alloc = rt.alloc();
    let image = image_after(alloc, empty(alloc)?, "create f\n")?;
    let gate = Hold::for_more(1, 3, 15, 6);
    let job = "client 1\nwrite f 0 61\ncount 37\n";
    let (status, text, _) = ended_by(&rt, alloc, image, Sha1Print, job, &gate)?;
    assert!(rt; gate.has_held());
    assert_eq!(rt; status, 0);
    let wanted = "1 2 done\nt 37 0 1\nt 37 1 0\nr 1 3 37 1 0\nend 1 55\n";
    assert_eq!(rt; text.as_slice(), wanted.as_bytes());
    Ok(())
}

// Two files with one page, which they share.
const SHARED: &str = "create a\nfill a 0 4096 41\ncreate b\nfill b 0 4096 41\n";

#[test]
fn a_count_is_read_while_it_changes(rt: HostRuntime) -> Result<(), Fail> {
    let alloc = rt.alloc();
    let image = image_after(alloc, empty(alloc)?, SHARED)?;
    let job = "client 1\nfill a 0 4096 42\ncount 24\n";
    let (status, text, _) = ended_by(&rt, alloc, image, Sha1Print, job, &dn_shared::Open)?;
    assert_eq!(rt; status, 0);
    let reads = ["\nr 1 3 24 2 1\nend 1 53\n", "\nr 1 3 24 1 0\nend 1 53\n"];
    assert!(rt; reads.iter().any(|read| text.ends_with(read.as_bytes())));
    Ok(())
}

// Holds of three, each with its own.
#[derive(Drop)]
struct Three(Hold, Hold, Hold);

impl Gate for Three {
    fn between(&self, who: u32, event: u32) {
        self.0.between(who, event);
        self.1.between(who, event);
        self.2.between(who, event);
    }
}

#[test]
fn a_released_count_is_seen_later(rt: HostRuntime) -> Result<(), Fail> {
    let alloc = rt.alloc();
    let image = image_after(alloc, empty(alloc)?, SHARED)?;
    // client 2 removes the file once client 1 has read; client 1 reads again once that was released
    let gate = Three(
        Hold::until(2, 1, 1, 1),
        Hold::until(1, 1, 2, 4),
        Hold::for_more(1, 2, 16, 50),
    );
    let job =
        "client 1\ncount 24\nsize b\nsize b\ncount 24\ncount 24\nclient 2\nsize b\nremove a\n";
    let (status, text, _) = ended_by(&rt, alloc, image, Sha1Print, job, &gate)?;
    assert!(rt; gate.0.has_held() && gate.1.has_held() && gate.2.has_held());
    assert_eq!(rt; status, 0);
    let reads = "t 24 2 1\nt 24 1 0\nr 1 2 24 2 0\nr 1 5 24 1 0\nr 1 6 24 1 0\nend 4 55\n";
    assert!(rt; text.ends_with(reads.as_bytes()));
    Ok(())
}

// A fingerprint that looks, the first time, for the answer of a client's call.
#[derive(Clone, Copy)]
struct Watched<'a> {
    begun: &'a AtomicU64,
    answered: &'a AtomicU64,
    unseen: &'a AtomicBool,
}

impl<'a> Fingerprint for Watched<'a> {
    ghost use Rattle.sha1.specs.Sha1.{sha1};
    ghost use Rattle.fingerprint.specs.PrintLaws.{sha1-print};

    ghost print = { sha1 };

    ghost is_print = { sha1-print };

    fn of(&self, page: &[u8]) -> [u8; 20] {
        self.begun.store(1, SeqCst);
        if !has_come(self.answered, 1) {
            self.unseen.store(true, SeqCst);
        }
        Sha1Print.of(page)
    }
}

// Client 1 makes its fourth event once a fingerprint is being taken, and its answer is told then.
#[derive(Drop)]
struct Answers<'a>(Watched<'a>);

impl<'a> Gate for Answers<'a> {
    fn between(&self, who: u32, event: u32) {
        if who == 1 && event == 3 && !has_come(self.0.begun, 1) {
            self.0.unseen.store(true, SeqCst);
        }
        if who == 1 && event == 4 {
            self.0.answered.store(1, SeqCst);
        }
    }
}

#[test]
fn fingerprints_hold_nobody_up(rt: HostRuntime) -> Result<(), Fail> {
    let alloc = rt.alloc();
    let image = image_after(alloc, empty(alloc)?, "create f\n")?;
    let (begun, answered) = (AtomicU64::new(0), AtomicU64::new(0));
    let unseen = AtomicBool::new(false);
    let print = Watched {
        begun: &begun,
        answered: &answered,
        unseen: &unseen,
    };
    let job = "client 1\nwrite f 0 61\nsize f\n";
    let (status, text, _) = ended_by(&rt, alloc, image, print, job, &Answers(print))?;
    assert!(rt; begun.load(SeqCst) == 1 && !unseen.load(SeqCst));
    assert_eq!(rt; status, 0);
    let wanted = "1 2 done\n1 3 number 1\nt 37 0 1\nt 37 1 0\nend 2 55\n";
    assert_eq!(rt; text.as_slice(), wanted.as_bytes());
    Ok(())
}
