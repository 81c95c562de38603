//! What is tested of the text that Prometheus reads.

use kb_metrics::{
    Figure, Kind, Label, ProcessGauges, Rates, Value, push_figures, push_process, push_sample,
};
use std::test::*;

/// A group's id, and its sample.
const LABELS: [(&str, &str); 4] = [
    ("orders", "n{group=\"orders\"} 7\n"),
    ("a\"b\nc\\d", "n{group=\"a\\\"b\\nc\\\\d\"} 7\n"),
    ("<script>", "n{group=\"<script>\"} 7\n"),
    ("", "n{group=\"\"} 7\n"),
];

/// A number, and how it is printed.
const VALUES: [(Value, &str); 6] = [
    (Value::Whole(0), "0"),
    (Value::Whole(u64::MAX), "18446744073709551615"),
    (Value::Thousandths(12_500), "12.500"),
    (Value::Thousandths(7), "0.007"),
    (Value::Millionths(4_000), "0.004000"),
    (Value::Millionths(61_000_203), "61.000203"),
];

#[test]
fn labels_are_escaped(rt: HostRuntime) -> Result<(), Fail> {
    for (id, text) in LABELS {
        let mut out = Vec::new(rt.alloc());
        let label = Label {
            name: "group",
            value: id.as_bytes(),
        };
        push_sample(&mut out, "n", label, &[], 7)?;
        assert_eq!(rt; out.as_slice(), text.as_bytes());
    }
    Ok(())
}

#[test]
fn numbers_are_printed(rt: HostRuntime) -> Result<(), Fail> {
    for (value, text) in VALUES {
        let mut out = Vec::new(rt.alloc());
        let figure = Figure {
            name: "n",
            help: "N.",
            kind: Kind::Gauge,
            value: Some(value),
        };
        push_figures(&mut out, &[figure])?;
        let line = format!(in rt.alloc(); "# HELP n N.\n# TYPE n gauge\nn {text}\n")?;
        assert_eq!(rt; out.as_slice(), line.as_bytes());
    }
    Ok(())
}

#[test]
fn what_is_not_known_is_left_out(rt: HostRuntime) -> Result<(), Fail> {
    let mut out = Vec::new(rt.alloc());
    let process = ProcessGauges {
        version: "0.3.0",
        start_seconds: 1_795_770_612,
        start_text: "2026-11-27T00:00:12Z",
        resident_bytes: None,
        open_fds: None,
        max_fds: None,
        cpu_millis: Some(12_500),
    };
    push_process(&mut out, &process)?;
    let text = "# HELP kbroker_build_info The version that runs.\n\
        # TYPE kbroker_build_info gauge\n\
        kbroker_build_info{version=\"0.3.0\"} 1\n\
        # HELP process_start_time_seconds When the broker began to serve, in seconds since the beginning of 1970.\n\
        # TYPE process_start_time_seconds gauge\n\
        process_start_time_seconds 1795770612\n\
        # HELP process_cpu_seconds_total Time of processors that the process took.\n\
        # TYPE process_cpu_seconds_total counter\n\
        process_cpu_seconds_total 12.500\n";
    assert_eq!(rt; out.as_slice(), text.as_bytes());
    Ok(())
}

#[test]
fn seconds_without_a_note_are_zero(rt: HostRuntime) -> Result<(), Fail> {
    let mut rates = Rates::new(rt.alloc())?;
    for (second, bytes) in [(10, 5), (11, 8), (14, 20), (14, 21), (12, 22)] {
        rates.note(second, bytes, 0);
    }
    assert_eq!(rt; &rates.requests()[115..], [0, 3, 0, 0, 14].as_slice());
    rates.note(1000, 30, 0);
    assert_eq!(rt; &rates.requests()[117..], [0, 0, 8].as_slice());
    Ok(())
}
