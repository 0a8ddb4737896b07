/// The header of two CPUs, a zone and a percpu counter: seven lines.
pub const LANES: &str = "vmtrace 1
cpus 2
zone 0 Normal 262144 100 125 150
base 0 Normal nr_free_pages 10000
base 0 node nr_file_pages 500
counter files 32
go
";

/// A phase of the two CPUs of `LANES`, and the line that ends it: 20 lines.
pub const FIRST_PHASE: &str = "c0 mod 0 Normal nr_free_pages -32
c0 mod 0 node nr_file_pages 32
c0 ev pgpgin 64
c0 ev pgfault 3
c1 mod 0 Normal nr_free_pages -8
c1 mod 0 node nr_anon_pages 8
c1 ev pgfault 2
c1 inc 0 Normal nr_mlock
c0 inc 0 node nr_dirty
c0 inc 0 node nr_dirty
c1 dec 0 node nr_dirty
c0 cnt files 5
c1 cnt files 40
c0 ok 0 Normal high 2
c0 snap 0 Normal nr_free_pages
c1 sum files
c1 cmp files 30
k pressure 0
c0 mod 0 Normal nr_free_pages -13
sync
";

/// The phase after `FIRST_PHASE`, with a report and a flush: eleven lines.
pub const SECOND_PHASE: &str = "c0 mod 0 Normal nr_free_pages 10
c1 mod 0 Normal nr_free_pages -4
c1 lim files 100 20
c0 lim files 100 56
c0 val 0 Normal nr_free_pages
c0 sys nr_free_pages
c1 evsum pgfault
c0 fold 1
k normal 0
report totals
flush
";
