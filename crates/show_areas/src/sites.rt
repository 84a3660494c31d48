// The sites that are shown, and the plans drawn for one of them by hand.
use crate::plans::{Verdict, plan};
use print::Numbers;
use std::io;

// A transmitter is feet times 65,536 and tenths of an ohm.
fn one(feet: u16, tenths: u16) -> u32 {
    u32::from(feet) * 65536 + u32::from(tenths)
}

fn named(rt: &impl Print, name: &str, site: &[u32]) -> io::Result<()> {
    print!(rt; "{name}:")?;
    plan(rt, site)
}

pub(crate) fn small(rt: &impl Print) -> io::Result<()> {
    let site = [one(5000, 0), one(5000, 0), one(1, 0)];
    named(rt, "no transmitter", &[])?;
    named(rt, "5000/0 5000/0 1/0", &site)?;
    named(
        rt,
        "10/250 10/250 10/1",
        &[one(10, 250), one(10, 250), one(10, 1)],
    )?;
    named(rt, "10000/500", &[one(10000, 500)])?;
    named(rt, "10001/0", &[one(10001, 0)])?;
    named(rt, "0/501", &[one(0, 501)])?;
    named(rt, "65535/65535 twice", &[one(65535, 65535); 2])
}

// Many transmitters that are alike.
pub(crate) fn alike(rt: &impl Print) -> io::Result<()> {
    let counted = [
        ("0/0", one(0, 0), 30),
        ("0/0", one(0, 0), 31),
        ("0/0", one(0, 0), 120),
        ("0/0", one(0, 0), 121),
        ("5000/0", one(5000, 0), 16),
        ("5000/0", one(5000, 0), 17),
        ("10000/0", one(10000, 0), 9),
    ];
    for (name, transmitter, count) in counted {
        print!(rt; "{count} of {name}:")?;
        plan(rt, &[transmitter; 121][..count.min(121)])?;
    }
    Ok(())
}

// Plans for a site, as the fitter drew them.
fn draw(rt: &impl Print, site: &[u32], plans: &[&[u8]]) -> io::Result<()> {
    for plan in plans {
        let verdict = Verdict(areas::sisal_check_areas(site, plan));
        println!(rt; "[{} ]: {verdict}", Numbers(plan))?;
    }
    Ok(())
}

pub(crate) fn drawn(rt: &impl Print) -> io::Result<()> {
    let site = [one(5000, 0), one(5000, 0), one(1, 0)];
    draw(
        rt,
        &site,
        &[
            &[2, 1],
            &[1, 2],
            &[1, 1, 1],
            &[3],
            &[2],
            &[2, 0, 1],
            &[2, 1, 0],
            &[2, 1, 1],
            &[],
            &[2, 255],
        ],
    )?;
    println!(rt; "for no transmitter")?;
    draw(rt, &[], &[&[], &[0]])?;
    println!(rt; "for 121 of 0/0")?;
    draw(rt, &[0; 121], &[&[30, 30, 30, 30, 1]])
}
