//! Settings, choices, stub files and generated programs.
use choices_file::read_choices;
use program_generator::generate;
use rlc_base::Text;
use settings_file::{default_settings, print_settings, read_settings};
use std::test::Fail;
use stub_files::read_stub;

#[test]
fn choices_are_read(rt: HostRuntime) -> Result<(), Fail> {
    let choices = read_choices(rt.alloc(), 1, b"# first\n\nargs 2\n0\n3 -7\n")?;
    assert_eq!(rt; choices.args, 2);
    assert_eq!(rt; choices.list.len(), 2);
    assert_eq!(rt; choices.list[1].value, -7);
    Ok(())
}

#[test]
fn a_program_is_generated(rt: HostRuntime) -> Result<(), Fail> {
    let text = generate(rt.alloc(), 1, 2)?;
    assert!(rt; text.bytes().len() > 200);
    Ok(())
}

#[test]
fn settings_are_read_and_printed(rt: HostRuntime) -> Result<(), Fail> {
    let first = default_settings(rt.alloc())?;
    let mut text = Text::new(rt.alloc());
    print_settings(rt.alloc(), &first, &mut text)?;
    let second = read_settings(rt.alloc(), 1, text.bytes())?;
    assert_eq!(rt; second.version, 2);
    assert_eq!(rt; second.ignored.len(), 2);
    Ok(())
}

#[test]
fn sections_are_read(rt: HostRuntime) -> Result<(), Fail> {
    let text = b"package p; class A { void close(); } package q; class B { }";
    let units = read_stub(rt.alloc(), 1, text)?;
    assert_eq!(rt; units.len(), 2);
    Ok(())
}
