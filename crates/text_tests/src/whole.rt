use crate::databases::{CIRCLE, EMPTY, ENTRIES, FRAME, LONE_BIT, REMAINING, SESSIONS};
use crate::outline::lines_of;
use db_load::load_database;
use db_model::DbFail;
use std::alloc::Global;
use std::test::Fail;

/// Databases and their lines.
const LINES: [(&[u8], &[u8]); 7] = [
    (EMPTY, b"netpdl 1 - - - -\n"),
    (
        FRAME,
        b"netpdl 1 - - - -
protocol 2 startproto - -
encapsulation 2
nextproto 2 #frame
end
protocol 3 frame - -
format 3
fields 3
field 3 head fixed 2 - -
end
",
    ),
    (
        LONE_BIT,
        b"netpdl 1 - - - -
protocol 2 startproto - -
format 2
fields 2
field 3 a bit 1 240 - -
field 4 b fixed 1 - -
end
",
    ),
    (
        CIRCLE,
        b"netpdl 1 - - - -
protocol 2 startproto - -
format 2
fields 2
includeblk 2 x
end
block 3 x -
includeblk 3 y
end
block 4 y -
includeblk 4 x
end
",
    ),
    (
        REMAINING,
        b"netpdl 1 [all] [1] [me] [today]
variable 2 n num 16 packet
variable 2 p proto a -
showtemplate 3 h hex 0 []
showsumtemplate 4 s
packethdr 4 len
protocol 5 a - -
execute-code 5
before 5
switch 5 $n
case 5 1 255
end
default 5
assign-variable 5 n $n + 1
end
end
end
format 6
fields 6
block 6 b [B]
field 7 t tokenended [\r\n] [T] -
field 7 p padding 4 - -
loop 8 size 8
loopctrl 8 continue
end
loop 8 count 2
if 8 1
if-true 8
loopctrl 9 break
end
end
end
end
end
",
    ),
    (
        ENTRIES,
        b"netpdl 1 - - - -
lookuptable 2 t 2 1
key 2 k 1
data 2 d buf 1
protocol 3 startproto - -
encapsulation 3
nextproto 3 #op
end
protocol 4 op - -
format 4
fields 4
field 5 o fixed 1 - -
field 5 k fixed 1 - -
field 5 v fixed 1 - -
switch 6 buf2int(o)
case 7 1 1
update-lookuptable 7 t forever - -
key 7 k -
data 7 v
end
case 8 2 2
update-lookuptable 8 t maxtime 5 -
key 8 k -
data 8 v
end
case 9 3 3
update-lookuptable 9 t updateonhit 5 3
key 9 k -
data 9 v
end
case 10 4 4
if 10 checklookuptable(t, k)
if-true 10
includeblk 10 hit
end
if-false 10
includeblk 10 miss
end
end
end
case 11 5 5
if 11 checkupdatelookuptable(t, k)
if-true 11
includeblk 11 hit
end
if-false 11
includeblk 11 miss
end
end
end
case 12 6 6
update-lookuptable 12 t addonhit - 3
key 12 k [\xF0]
data 12 v
end
case 13 7 7
if 13 0 and checkupdatelookuptable(t, k)
if-true 13
includeblk 13 hit
end
if-false 13
includeblk 13 miss
end
end
end
case 14 8 8
loop 14 while 1
end
end
case 15 9 9
update-lookuptable 15 t maxtime 5 -
key 15 k -
data 15 v
if 15 checklookuptable(t, k)
if-true 15
includeblk 15 hit
end
if-false 15
includeblk 15 miss
end
end
end
end
end
block 16 hit -
end
block 16 miss -
end
",
    ),
    (
        SESSIONS,
        b"netpdl 2 - - - -
variable 3 src buf [] -
variable 4 dst buf [] -
lookuptable 5 sessions 1024 0
key 6 a 4
key 6 b 4
key 6 p 2
key 6 q 2
data 7 next proto -
showtemplate 9 ip4 dec 1 [.]
showtemplate 10 num dec 2 []
showtemplate 11 txt ascii 0 []
showsumstruct 12
section 12 [No]
section 12 [Time]
section 12 [Info]
showsumtemplate 13 st
packethdr 13 num
section 13 [Time]
packethdr 13 timestamp
showsumtemplate 14 ips
section 14 [Info]
protofield 14 src
text 14 [ > ]
protofield 14 dst
showsumtemplate 15 tcps
section 15 [Info]
text 15 [ tcp ]
protofield 15 sport
text 15 [ ]
protofield 15 dport
showsumtemplate 16 txts
section 16 [Info]
text 16 [ text ]
protofield 16 line
protocol 17 startproto - st
encapsulation 17
switch 17 $linktype
case 18 1 1
nextproto 18 #ethernet
end
end
end
protocol 19 ethernet [Ethernet] -
format 19
fields 19
field 20 dst fixed 6 - -
field 20 src fixed 6 - -
field 21 type fixed 2 - -
end
encapsulation 22
switch 22 buf2int(type)
case 22 2048 2048
nextproto 22 #ip
end
end
end
protocol 23 ip [IPv4] ips
execute-code 24
after 24
assign-variable 24 src src
assign-variable 24 dst dst
end
format 25
fields 25
field 26 ver bit 1 240 - -
field 26 hlen bit 1 15 - -
field 27 tos fixed 1 - -
field 27 tlen fixed 2 - num
field 28 idfrag fixed 4 - -
field 28 ttl fixed 1 - -
field 29 proto fixed 1 - -
field 29 csum fixed 2 - -
field 30 src fixed 4 - ip4
field 30 dst fixed 4 - ip4
field 31 opts variable (buf2int(hlen) * 4) - 20 - -
end
encapsulation 32
switch 32 buf2int(proto)
case 32 6 6
nextproto 32 #tcp
end
end
end
protocol 33 tcp - tcps
execute-code 34
after 34
if 34 buf2int(dport) == 80
if-true 34
update-lookuptable 35 sessions updateonhit 60 300
key 36 $dst -
key 36 $src -
key 36 dport -
key 36 sport -
data 36 #text
end
end
end
format 38
fields 38
field 39 sport fixed 2 - num
field 39 dport fixed 2 - num
field 40 seqack fixed 8 - -
field 41 off bit 1 240 - -
field 41 res bit 1 15 - -
field 42 flags fixed 1 - -
field 42 win fixed 2 - -
field 43 csumurg fixed 4 - -
field 44 opts variable (buf2int(off) * 4) - 20 - -
end
encapsulation 45
if 45 checkupdatelookuptable(sessions, $src, $dst, sport, dport)
if-true 45
nextproto 46 $sessions.next
end
end
end
protocol 47 text - txts
format 47
fields 47
field 47 line line - txt
end
",
    ),
];

/// Whether a database has exactly these lines.
fn has_lines(alloc: Global, text: &[u8], lines: &[u8]) -> Result<bool, DbFail> {
    let db = load_database(alloc, text)?;
    let found = lines_of(alloc, &db)?;
    Ok(found.as_slice() == lines)
}

#[test]
fn databases_are_as_they_are_written(rt: HostRuntime) -> Result<(), Fail> {
    for (text, lines) in &LINES {
        let is_so = has_lines(rt.alloc(), text, lines)?;
        assert!(rt; is_so);
    }
    Ok(())
}
