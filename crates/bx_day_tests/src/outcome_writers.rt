//! Outcomes on writers that fail at each place.

use bx_cases::Failing;
use bx_day::Exchange;
use bx_devices::Watched;
use bx_worked_days::{Row, exchange_of};
use std::alloc::Global;
use std::test::Fail;

static ROWS: [Row; 2] = [(0, 60, 1, false), (60, 90, 1, true)];

static TEXT: &str = "1 waiting\n2 waiting\nmaintenance none\n";

/// Writes to a writer that takes one octet a call and fails after so many; answers whether it then has that
/// prefix of the text, and is faulted where that is not all.
fn writes_prefix(alloc: Global, exchange: &Exchange, text: &[u8], calls: u32) -> bool {
    let mut writer = Watched::new(Failing::new(Vec::new(alloc), calls, 1));
    let whole = exchange.write_outcomes(&[], &mut writer).is_ok();
    let faulted = writer.faulted();
    let octets = writer.into_inner().into_inner();
    let is_prefix = octets.len() == calls as usize && text.starts_with(octets.as_slice());
    is_prefix && whole == (octets.len() == text.len()) && faulted != whole
}

#[test]
fn failing_writers(rt: HostRuntime) -> Result<(), Fail> {
    let exchange = exchange_of(rt.alloc(), &ROWS).ok_or("opening")?;
    for calls in 0..=TEXT.len() as u32 {
        let is_prefix = writes_prefix(rt.alloc(), &exchange, TEXT.as_bytes(), calls);
        assert!(rt; is_prefix, "{calls}");
    }
    let mut none = Watched::new(Failing::new(Vec::new(rt.alloc()), 99, 0));
    assert!(rt;
        exchange.write_outcomes(&[], &mut none).is_err() && none.faulted(),
        "one that takes none"
    );
    Ok(())
}
