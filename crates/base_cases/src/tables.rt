//! The host functions.

use host_functions::{
    function_number, host_function, host_name, host_place, laws, number_at, number_named,
    place_named,
};

pub fn print(rt: &HostRuntime, words: &[&str]) -> anyhow::Result<bool> {
    match words {
        ["host_functions"] => {
            laws::places_are_found();
            for number in 0..=u8::MAX {
                print_function(rt, number)?;
            }
        }
        ["number_named", name] => {
            laws::names_are_found();
            println!(rt;
                "{:?} {:?}",
                number_named(name.as_bytes()),
                place_named(name.as_bytes())
            )?;
        }
        ["number_at", place] => {
            println!(rt; "{:?}", number_at(u64::from_str_radix(place, 16)?))?;
        }
        _ => return Ok(false),
    }
    Ok(true)
}

/// Prints the host function of a number, where there is one.
fn print_function(rt: &HostRuntime, number: u8) -> anyhow::Result<()> {
    let (Some(function), Some(name)) = (host_function(number), host_name(number)) else {
        return Ok(());
    };
    println!(rt;
        "{number} {function:?} {} {name} at {:#x}",
        function_number(function),
        host_place(number)
    )?;
    Ok(())
}
