//! Ports and sockets that are taken, and that nobody serves.

use crate::files::{does, folder};
use std::fs;
use std::net::{Ipv4Addr, TcpListener, TcpStream};
use std::os::unix::net::UnixListener;
use std::test::Fail;

/// A port on which somebody listens, and then nobody. The connection that was accepted keeps the port, so that no other program is
/// given it in between.
#[test]
fn ports_in_use_and_not(rt: HostRuntime) -> Result<(), Fail> {
    let folder = folder(&rt)?;
    let listener = TcpListener::bind(&rt, "127.0.0.1:0")?;
    let port = listener.local_addr()?.port();
    let words = format!(in rt.alloc(); "serve @one.txt --port {port}")?;
    let refused = (1, "", "bx: F3 CannotListen\n");
    assert!(rt; does(&rt, &folder, &words, refused)?, "taken");
    let near = TcpStream::connect(&rt, (Ipv4Addr::LOCALHOST, port))?;
    let (distant, _) = listener.accept()?;
    drop(listener);
    let words = format!(in rt.alloc(); "far @answer.csv --port {port}")?;
    let refused = (1, "", "bx: F4 CannotConnect\n");
    assert!(rt; does(&rt, &folder, &words, refused)?, "nobody");
    drop(distant);
    drop(near);
    fs::remove_dir_all(&rt, folder.as_str())?;
    Ok(())
}

/// Words of which nothing is listened on, or connected to, with the fault. At `@left` lies the file of a socket that nobody listens on.
static SOCKETS: [(&str, &str); 5] = [
    ("serve @one.txt --socket @one.csv", "bx: F3 CannotListen\n"),
    (
        "serve @one.txt --socket @gone/link",
        "bx: F3 CannotListen\n",
    ),
    ("far @answer.csv --socket @left", "bx: F4 CannotConnect\n"),
    ("far @answer.csv --socket @gone", "bx: F4 CannotConnect\n"),
    (
        "far @answer.csv --socket @one.csv",
        "bx: F4 CannotConnect\n",
    ),
];

/// A day that has gone by, with an office in place of an ordinary file. It would end at once, where the words below would wait.
const OFFICE: &str =
    "serve @two.txt --live --line 19831:19832 --date 2020-01-01 --journal @new.journal --office @one.csv --turns 130";

/// The first words that are answered otherwise.
fn first_wrong(rt: &HostRuntime, folder: &str) -> Result<Option<&'static str>, Fail> {
    for (words, fault) in &SOCKETS {
        if !does(rt, folder, words, (1, "", fault))? {
            return Ok(Some(words));
        }
    }
    Ok(None)
}

#[test]
fn sockets_in_use_and_not(rt: HostRuntime) -> Result<(), Fail> {
    let folder = folder(&rt)?;
    let refused = (1, "", "bx: F3 CannotListen\n");
    assert!(rt; does(&rt, &folder, OFFICE, refused)?, "an office");
    let path = format!(in rt.alloc(); "{folder}/left")?;
    let listener = UnixListener::bind(&rt, path.as_str())?;
    assert!(rt;
        does(&rt, &folder, "serve @one.txt --socket @left", refused)?,
        "taken"
    );
    drop(listener);
    let file = format!(in rt.alloc(); "{folder}/one.csv")?;
    let before = fs::read(&rt, file.as_str())?;
    assert_eq!(rt; first_wrong(&rt, &folder)?, None);
    let after = fs::read(&rt, file.as_str())?;
    assert!(rt; before.as_slice() == after.as_slice(), "an ordinary file");
    fs::remove_dir_all(&rt, folder.as_str())?;
    Ok(())
}
