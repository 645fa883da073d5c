//! Texts of tables with their first faults, and the numbers of two that are right.
use std::alloc::{AllocError, Global};
use std::test::Fail;
use table_files::{TableFault, Tables, read_input_order, read_reliability};

/// `start`, and behind it the numbers from `first` to `last`, each behind a space.
fn listed(alloc: Global, start: &str, first: u16, last: u16) -> Result<String, AllocError> {
    let mut text = format!(in alloc; "{start}")?;
    for number in first..=last {
        write!(text, " {number}")?;
    }
    Ok(text)
}

#[test]
fn first_faults(rt: HostRuntime) -> Result<(), Fail> {
    let texts: [(&[u8], TableFault); 16] = [
        (b"", TableFault::Count { found: 0 }),
        (b" ,\t\r\n7,,", TableFault::Count { found: 1 }),
        (b"x", TableFault::BadByte { at: 0 }),
        (b"1 2 x", TableFault::BadByte { at: 4 }),
        (b"1-2", TableFault::BadByte { at: 1 }),
        (b"5\x0b6", TableFault::BadByte { at: 1 }),
        (b"7 /", TableFault::BadByte { at: 2 }),
        (b"7 :", TableFault::BadByte { at: 2 }),
        (b"x164", TableFault::BadByte { at: 0 }),
        (b"164", TableFault::TooLarge { at: 0, value: 164 }),
        (b"3, 0164x", TableFault::TooLarge { at: 3, value: 164 }),
        (
            b"65536",
            TableFault::TooLarge {
                at: 0,
                value: 65_535,
            },
        ),
        (
            b"4294967301 ",
            TableFault::TooLarge {
                at: 0,
                value: 65_535,
            },
        ),
        (b"007 7", TableFault::Repeated { value: 7 }),
        (b"7 7x", TableFault::Repeated { value: 7 }),
        (
            b"0 1 2 3 4 5 6 7 7 9 164",
            TableFault::Repeated { value: 7 },
        ),
    ];
    for (text, fault) in texts {
        assert_eq!(rt; read_input_order(text).err(), Some(fault));
    }
    Ok(())
}

#[test]
fn reliability_of_1024_numbers(rt: HostRuntime) -> Result<(), Fail> {
    let mut text = listed(rt.alloc(), "0", 1, 1022)?;
    assert_eq!(rt;
        read_reliability(text.as_bytes()).err(),
        Some(TableFault::Count { found: 1023 })
    );
    let too_large = format!(in rt.alloc(); "{text} 1024")?;
    assert_eq!(rt;
        read_reliability(too_large.as_bytes()).err(),
        Some(TableFault::TooLarge {
            at: 4005,
            value: 1024
        })
    );
    write!(text, " 1023\n")?;
    let table = read_reliability(text.as_bytes())?;
    assert_eq!(rt; (table.at(0), table.at(1), table.at(1023)), (0, 1, 1023));
    write!(text, "1023")?;
    assert_eq!(rt;
        read_reliability(text.as_bytes()).err(),
        Some(TableFault::Repeated { value: 1023 })
    );
    Ok(())
}

#[test]
fn input_orders_of_one_list_are_equal(rt: HostRuntime) -> Result<(), Fail> {
    let text = listed(rt.alloc(), "0", 1, 163)?;
    let other = listed(rt.alloc(), ",\t001\r\n,,0000", 2, 163)?;
    let same = format!(in rt.alloc(); "\n{text}\n,")?;
    let first = read_input_order(text.as_bytes())?;
    let second = read_input_order(same.as_bytes())?;
    let swapped = read_input_order(other.as_bytes())?;
    assert_eq!(rt;
        (swapped.at(0), swapped.at(1), swapped.at(163)),
        (1, 0, 163)
    );
    assert!(rt; first == second);
    assert!(rt; first != swapped);
    Ok(())
}

/// The tables that two texts spell.
fn tables_of(reliability: &str, input_order: &str) -> Result<Tables, Fail> {
    Ok(Tables {
        reliability: read_reliability(reliability.as_bytes())?,
        input_order: read_input_order(input_order.as_bytes())?,
    })
}

#[test]
fn tables_of_one_input_order_are_equal(rt: HostRuntime) -> Result<(), Fail> {
    let reliability = listed(rt.alloc(), "0", 1, 1023)?;
    let first = listed(rt.alloc(), "0", 1, 163)?;
    let swapped = listed(rt.alloc(), "1 0", 2, 163)?;
    let one = tables_of(reliability.as_str(), first.as_str())?;
    let two = tables_of(reliability.as_str(), swapped.as_str())?;
    assert!(rt; one != two);
    assert!(rt; one == one);
    Ok(())
}
