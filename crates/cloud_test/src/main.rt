// Reads literal inputs and writes each answer: its number, detail and count, and the bits of the radius, of the points
// and of the normals.
// A slot that was not written keeps 41100000, the bits of 9.
#![tactic(auto)]

use std::io;

fn bits_of(x: f32) -> u32 {
    if x != x {
        return 0x7fc0_0000;
    }
    f32::to_bits(x)
}

fn write_bits(rt: &HostRuntime, x: f32) -> io::Result<()> {
    print!(rt; " {:08x}", bits_of(x))
}

fn write_slice(rt: &HostRuntime, s: &[f32]) -> io::Result<()> {
    for x in s {
        write_bits(rt, *x)?;
    }
    Ok(())
}

fn show(rt: &HostRuntime, input: &[u8]) -> io::Result<()> {
    let mut points = [9.0f32; 6];
    let mut normals = [9.0f32; 7];
    let r = cloud::read_cloud(input, &mut points, &mut normals);
    print!(rt; "{},{},{},", r.answer, r.detail, r.count)?;
    write_bits(rt, r.radius)?;
    print!(rt; " |")?;
    write_slice(rt, &points)?;
    print!(rt; " |")?;
    write_slice(rt, &normals)?;
    println!(rt; "")
}

fn accepted(rt: &HostRuntime) -> io::Result<()> {
    show(rt, b"1\n")?;
    show(rt, b"1.57\n")?;
    show(rt, b"-0\n")?;
    show(rt, b"-00000.000000\n")?;
    show(rt, b"99999.999999\n")?;
    show(rt, b"0.000001\n0,0,0,0,0,1\n")?;
    show(
        rt,
        b"16777.217\n1.006329,2.012658,-8.003757,65536.011719,65536.011718,00001.5700\n",
    )?;
    show(
        rt,
        b"1\n1,-2,3.5,0.25,-0.125,00007\n-99999,0.1,16777.2,33333,-0,1.000001\n",
    )
}

fn no_room(rt: &HostRuntime) -> io::Result<()> {
    show(rt, b"1\n0,0,0,0,0,1\n1,0,0,0,0,1\n0,1,0,0,0,1\n")?;
    show(
        rt,
        b"1\n0,0,0,0,0,1\n1,0,0,0,0,1\n0,1,0,0,0,1\n0,1,0,0,0,1 \n",
    )
}

fn ends(rt: &HostRuntime) -> io::Result<()> {
    show(rt, b"")?;
    show(rt, b"\n")?;
    show(rt, b"1")?;
    show(rt, b"1\n\n")?;
    show(rt, b"1\n0,0,0,0,0,1")?;
    show(rt, b"1\n0,0,0,0,0,1\n0")?;
    show(rt, b"\n1\n")
}

fn fields(rt: &HostRuntime) -> io::Result<()> {
    show(rt, b"1,2\n")?;
    show(rt, b"1\n0,0,0,0,0\n")?;
    show(rt, b"1\n0,0,0,0,0,\n")?;
    show(rt, b"1\n,0,0,0,0,0\n")?;
    show(rt, b"1\n0,,0,0,0,0\n")?;
    show(rt, b"1\n0,0,0,0,0,0,0\n")?;
    show(rt, b"1\n0,0,0,0,0,1\n1\n")?;
    show(rt, b"1\n0;0,0,0,0,0\n")
}

fn numbers(rt: &HostRuntime) -> io::Result<()> {
    show(rt, b"+1\n")?;
    show(rt, b"1e3\n")?;
    show(rt, b"1\n0,0,0,0,0,1\n0,0,0,1E1,0,0\n")?;
    show(rt, b"1.\n")?;
    show(rt, b".5\n")?;
    show(rt, b"123456\n")?;
    show(rt, b"1.1234567\n")?;
    show(rt, b"-\n")
}

fn more_numbers(rt: &HostRuntime) -> io::Result<()> {
    show(rt, b"--1\n")?;
    show(rt, b"1-\n")?;
    show(rt, b"1.2.3\n")?;
    show(rt, b"-.5\n")?;
    show(rt, b"1\n0,0,-,0,0,1\n")?;
    show(rt, b"000001\n")?;
    show(rt, b"nan\n")?;
    show(rt, b"inf\n")
}

fn bytes(rt: &HostRuntime) -> io::Result<()> {
    show(rt, b" 1\n")?;
    show(rt, b"1 \n")?;
    show(rt, b"1\r\n")?;
    show(rt, b"1\n0,0,0,0,0,1\r\n")?;
    show(rt, b"1\n0,\t0,0,0,0,1\n")?;
    show(rt, b"\"1\"\n")?;
    show(rt, b"1\n\"0\",0,0,0,0,1\n")?;
    show(rt, b"1\n0,0,0,0,0,1\n0,0,0,0,0,\xb2\n")
}

fn more_bytes(rt: &HostRuntime) -> io::Result<()> {
    show(rt, b"\xef\xbb\xbf1\n")?;
    show(rt, b"1\x00\n")?;
    show(rt, b"1\n0,0,0,0,0,1\x00\n")?;
    show(rt, b"\x00")?;
    show(rt, b"1\n0,0,0,0,0,\xff\n")?;
    show(rt, b"/\n")?;
    show(rt, b":\n")
}

fn main(rt: HostRuntime) -> io::Result<()> {
    accepted(&rt)?;
    no_room(&rt)?;
    ends(&rt)?;
    fields(&rt)?;
    numbers(&rt)?;
    more_numbers(&rt)?;
    bytes(&rt)?;
    more_bytes(&rt)
}
