// How a record is spelled whose control file is written oddly: as dpkg 1.21.22 spells it behind an unpack of that package.
use super::{TreeFile, answers, expect};
use std::test::Fail;

const TREES: &[TreeFile] = &[(
    "t",
    "/DEBIAN/control",
    "Package: spelled
Essential: no
Version: 1.0-1
Protected: no
Section:  misc
Priority: optional
Architecture: all
Multi-Arch: no
Installed-Size: 007
Origin:
Maintainer:    nobody  <nobody@example.org>
X-Empty:
Homepage:
Depends: plain(>=1),
 same | other:any (<< 2:2.0-1) ,
 third ( = 3 )
Recommends:  xx|yy,zz
Suggests:
Enhances: qq|rr
Provides: pp (= 0.1), qq
Replaces: rr( << 2),
 ss
Tag:
 implemented-in::c,
  role::program
Description: one that is spelled oddly
 with a line   
 .
 and another one
",
)];

const LINES: &[&str] = &["dpkg_cli unpack t", "read /var/lib/dpkg/status"];

const ROW: &str = "state spelled 1.0-1 install ok unpacked
done
||0
Package: spelled
Status: install ok unpacked
Priority: optional
Section: misc
Installed-Size: 007
Maintainer: nobody  <nobody@example.org>
Architecture: all
Version: 1.0-1
Replaces: rr (<< 2), ss
Provides: pp (= 0.1), qq
Depends: plain (>= 1), same | other:any (<< 2:2.0-1), third (= 3)
Recommends: xx | yy, zz
Enhances: qq | rr
Description: one that is spelled oddly
 with a line   
 .
 and another one
X-Empty: 
Homepage: 
Tag: 
 implemented-in::c,
  role::program

";

#[test]
fn a_record_is_spelled_as_dpkg_does(rt: HostRuntime) -> Result<(), Fail> {
    expect(&rt, answers(rt.alloc(), TREES, &[], &[], LINES), ROW)
}
