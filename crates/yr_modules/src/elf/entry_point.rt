//! Where in the file the program's entry point lies.

ghost use Rattle.std.specs.Prelude.{◌≡◌, ◌+◌, ◌≤◌, length};
ghost use Rattle.yr_modules.specs.Elf.Layout.{header_size};
ghost use Rattle.yr_modules.specs.Elf.Rows.{segment_size};
ghost use Rattle.yr_modules.specs.Elf.EntryPoint.{entry_point, place_of_address, place_in_segment};

use crate::elf::layout::Layout;
use crate::elf::row::{E_ENTRY, E_PHNUM, P_MEMSZ, P_OFFSET, P_VADDR};

impl Layout {
    // The place in the file of an address in the segment whose header stands at a place.
    fn place_of_address(self, file: &[u8], address: u64, at: usize) -> Option<u64>
        requires { at + segment_size self.class ≤ length file.now }
        ensures { result ≡ place_of_address self file.now address at }
    {
        let low = self.number_in(file, at, P_VADDR);
        let size = self.number_in(file, at, P_MEMSZ);
        if low <= address && address - low < size {
            let offset = self.number_in(file, at, P_OFFSET);
            Some(offset.wrapping_add(address - low))
        } else {
            None
        }
    }

    fn place_in_segment(self, file: &[u8], address: u64, k: u64) -> Option<u64>
        requires { header_size self.class ≤ length file.now }
        ensures { result ≡ place_in_segment self file.now address k }
    {
        let at = self.segments(file).place(file.len(), k)?;
        self.place_of_address(file, address, at)
    }

    /// The place of the entry point, by the first segment whose memory holds it.
    pub(crate) fn entry_point(self, file: &[u8]) -> Option<u64>
        requires { header_size self.class ≤ length file.now }
        ensures { result ≡ entry_point self file.now }
    {
        let entry = self.number_in(file, 0, E_ENTRY);
        let count = self.number_in(file, 0, E_PHNUM);
        for k in 0..count {
            if let Some(place) = self.place_in_segment(file, entry, k) {
                return Some(place);
            }
        }
        None
    }
}
