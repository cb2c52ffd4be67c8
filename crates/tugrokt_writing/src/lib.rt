// Writing for other languages: a sheet as a text of a house onto a page, with the reply as its numbers.
#![tactic(auto)]

ghost use Rattle.tugrokt_writing.specs.Told.{WriteTold};

use forms::House;
use sheet::WrittenLists;
use tugrokt_replies::writing::Writing;

// Writes a sheet as a text of a house onto the page from the place on.
pub fn write_house(house: House, lists: &WrittenLists<'_>, page: &mut [u8], place: usize) -> Writing
    ensures { WriteTold house lists.now page.old place result page.new }
{
    let written = write::write_sheet(house, lists, page, place);
    tugrokt_replies::writing::numbers_of(place, written)
}
