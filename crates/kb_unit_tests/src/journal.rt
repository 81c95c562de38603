//! What is tested of a server's time and of its lines.

use kb_server_log::{GuardedClock, Missed, Notice, Reading, Sink};
use std::process::Abort;
use std::test::*;

/// Readings of the wall clock and of the steady clock in seconds, and what they come to: the moment in seconds, and what is told.
const READINGS: [(u32, u32, u32, Option<Notice>); 10] = [
    (1001, 1, 1001, None),
    // 61 seconds ahead, and back
    (1063, 2, 1002, Some(Notice::Ahead)),
    (1004, 3, 1004, Some(Notice::Back)),
    // 59 seconds ahead
    (1064, 4, 1034, None),
    // behind, for ten seconds in which nothing was read
    (1000, 14, 1036, None),
    (1072, 16, 1042, None),
    // ahead for ten minutes
    (9000, 17, 1043, Some(Notice::Ahead)),
    (9599, 616, 1612, None),
    (9600, 617, 9570, Some(Notice::Taken)),
    (0, 617, 9570, None),
];

/// The same of a standstill of eight seconds, and of one of fifty.
const STANDSTILLS: [(u32, u32, u32, Option<Notice>); 10] = [
    (1008, 8, 1002, None),
    (1009, 9, 1004, None),
    (1010, 10, 1006, None),
    (1011, 11, 1008, None),
    (1012, 12, 1010, None),
    (1013, 13, 1012, None),
    (1014, 14, 1014, None),
    (1015, 15, 1015, None),
    (1065, 65, 1035, None),
    (1066, 66, 1037, None),
];

const SECOND: u64 = 1_000_000;

/// A clock that starts at 1000 seconds does not follow each jump.
#[test]
fn a_clock_is_guarded(rt: HostRuntime) -> Result<(), Fail> {
    comes_to(&rt, &READINGS)
}

/// Where nothing was read for some seconds, the time goes on by two, and then at twice its pace. It stays half a minute behind at most.
#[test]
fn a_standstill_is_caught_up_with(rt: HostRuntime) -> Result<(), Fail> {
    comes_to(&rt, &STANDSTILLS)
}

/// Whether a clock that starts at 1000 seconds comes to what readings tell.
fn comes_to(rt: &impl Abort, readings: &[(u32, u32, u32, Option<Notice>)]) -> Result<(), Fail> {
    let mut clock = GuardedClock::starting(Reading {
        wall: 1000 * SECOND,
        steady: 0,
    });
    for &(wall, steady, seconds, told) in readings {
        let tick = clock.next(Reading {
            wall: u64::from(wall) * SECOND,
            steady: u64::from(steady) * SECOND,
        });
        assert_eq!(rt; tick.moment, u64::from(seconds) * 1000);
        assert_eq!(rt; tick.told, told);
    }
    Ok(())
}

/// Turns a microsecond apart come to half of their time.
#[test]
fn half_of_the_pace_loses_nothing(rt: HostRuntime) -> Result<(), Fail> {
    let mut clock = GuardedClock::starting(Reading {
        wall: SECOND,
        steady: 0,
    });
    let mut moment = 0;
    for steady in 1..=2000 {
        moment = clock.next(Reading { wall: 0, steady }).moment;
    }
    assert_eq!(rt; moment, 1001);
    Ok(())
}

/// A reader that has room for so many lines.
#[derive(Drop)]
struct Reader {
    room: usize,
    text: String,
}

impl Reader {
    fn take(&mut self, line: &str) -> bool {
        if self.room == 0 {
            return false;
        }
        self.room -= 1;
        self.text.push_str(line).is_ok()
    }
}

impl Sink for Reader {
    ghost offers_line = { λ _ _ _ _. Unit {0} };

    ghost offers_count = { λ _ _ _ _. Unit {0} };

    fn offer_line(&mut self, line: &str) -> bool {
        self.take(line)
    }

    fn offer_count(&mut self, missed: u64) -> bool {
        self.take(if missed == 2 { "(2)" } else { "(1)" })
    }
}

/// Of five lines two are missed, and then a third one: each count is told before the next line.
#[test]
fn missed_lines_are_counted(rt: HostRuntime) -> Result<(), Fail> {
    let mut missed = Missed::default();
    let mut reader = Reader {
        room: 0,
        text: String::new(rt.alloc()),
    };
    for (room, line) in [(1, "a"), (0, "b"), (0, "c"), (1, "d"), (2, "e")] {
        reader.room = room;
        missed.tell(&mut reader, line);
    }
    assert_eq!(rt; reader.text.as_str(), "a(2)(1)e");
    assert_eq!(rt; missed.lines, 0);
    Ok(())
}
