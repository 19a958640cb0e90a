// The site in memory as a site: the members are functions of its record. What each call leaves in the record, and which one
// fails, is said at the calls of the same names of [`MemSite`] itself.
ghost use Rattle.bl_site_mem.specs.Record.{start, at, disk_of, told_of, may_be_of, IsCertain, clock_of, left_since_of, disk_faults_in, tell_faults_in};

use crate::memory::MemSite;
use bl_site::{Site, SiteErr};
use std::alloc::Global;

impl Site for MemSite {
    ghost use Rattle.bl_site_mem.specs.Laws.{counts_now, only_now, earlier, reads, only, remnant};

    ghost shows = { Unit {0} };

    ghost disk = { disk_of };

    ghost told = { told_of };

    ghost may_be = { may_be_of };

    ghost certain = { IsCertain };

    ghost clock = { clock_of };

    ghost left_since = { left_since_of };

    ghost disk_faults = { λ m. disk_faults_in m.entries };

    ghost tell_faults = { λ m. tell_faults_in m.entries };

    ghost changes = { λ m. m.changes };

    ghost remnant = { λ shown m. remnant m.entries };

    ghost reads = { λ shown m. reads (at m).doubt (disk_of m) };

    ghost only = { λ shown m other. only (at m).doubt (disk_of m) other };

    ghost counts_now = { λ shown m. counts_now m.entries start };

    ghost earlier = { λ shown m. earlier m.entries start };

    ghost only_now = { λ shown m. only_now m.entries start };

    fn len(&mut self, name: &str) -> Result<Option<u64>, SiteErr> {
        MemSite::len(self, name)
    }

    fn read_at(
        &mut self,
        name: &str,
        offset: u64,
        into: &mut [u8],
    ) -> Result<Option<usize>, SiteErr> {
        MemSite::read_at(self, name, offset, into)
    }

    fn list(&mut self, alloc: Global) -> Result<Vec<String>, SiteErr> {
        MemSite::list(self, alloc)
    }

    fn create(&mut self, name: &str) -> Result<(), SiteErr> {
        MemSite::create(self, name)
    }

    fn append(&mut self, name: &str, bytes: &[u8]) -> Result<(), SiteErr> {
        MemSite::append(self, name, bytes)
    }

    fn sync(&mut self, name: &str) -> Result<(), SiteErr> {
        MemSite::sync(self, name)
    }

    fn rename(&mut self, from: &str, to: &str) -> Result<(), SiteErr> {
        MemSite::rename(self, from, to)
    }

    fn remove(&mut self, name: &str) -> Result<(), SiteErr> {
        MemSite::remove(self, name)
    }

    fn tell(&mut self, bytes: &[u8]) -> Result<(), SiteErr> {
        MemSite::tell(self, bytes)
    }
}
