// The script of a session.

/// Eight clients: section filters of the PIDs 0 and 512, payloads of video and audio, both recorded through the dvr node, and
/// packets of the PIDs 0 and 512.
pub const SCRIPT: &str = "\
c0 open n0\n\
c0 size n0 16777216\n\
c0 section n0 0 0 1 0=00/ff/00\n\
c1 open n1\n\
c1 size n1 16777216\n\
c1 section n1 512 0 1 0=42/ff/00\n\
c2 open n2\n\
c2 size n2 16777216\n\
c2 pes n2 256 frontend tap 1 0\n\
c3 open n3\n\
c3 size n3 16777216\n\
c3 pes n3 257 frontend tap 0 0\n\
c4 open n4\n\
c4 pes n4 256 frontend ts_tap 20 0\n\
c5 open n5\n\
c5 pes n5 257 frontend ts_tap 20 0\n\
c6 open dvr\n\
c6 size dvr 16777216\n\
c7 open n7\n\
c7 size n7 16777216\n\
c7 pes n7 0 frontend tsdemux_tap 20 0\n\
c7 add n7 512\n\
c0 start n0\n\
c1 start n1\n\
c2 start n2\n\
c3 start n3\n\
c4 start n4\n\
c5 start n5\n\
c7 start n7\n\
c0 drain n0 4096\n\
c1 drain n1 4096\n\
c2 drain n2 65536\n\
c3 drain n3 65536\n\
c6 drain dvr 65536\n\
c7 drain n7 65536\n\
stream\n\
";
