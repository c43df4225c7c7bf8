// Word list images, as hosts are told of them.
#![tactic(auto)]

ghost use Rattle.host_telling.specs.Told.{told};
ghost use Rattle.host_images.specs.Calls.{ReadImageTold, WriteImageTold};

use host_telling::tell;

// Replaces the words of a dictionary and their classes by those of an image; accepted with their
// number. Refusals 4, 9, 8.
pub fn read_image(pool: &mut [u32], image: &[u8], count: &mut usize, detail: &mut usize) -> u32
    ensures { ReadImageTold image.now pool.old
        (told result count.new detail.new) pool.new }
{
    let words = word_list::read_image(pool, image);
    tell(words, count, detail)
}

// Writes the words of a dictionary and their classes as an image to the front of out; accepted with
// its bytes. Refusals 4, 6.
pub fn write_image(pool: &[u32], out: &mut [u8], count: &mut usize, detail: &mut usize) -> u32
    ensures { WriteImageTold pool.now out.old
        (told result count.new detail.new) out.new }
{
    let bytes = word_list_write::write_image(pool, out);
    tell(bytes, count, detail)
}
