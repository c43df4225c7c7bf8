// Word list images of a plant, as hosts are told of them.
#![tactic(auto)]

ghost use Rattle.host_telling.specs.Told.{told};
ghost use Rattle.host_plants_images.specs.Calls.{PlantReadImageTold, PlantWriteImageTold};

use host_telling::tell;
use trie_plants::Plant;
use word_list_plants::read_image_in;
use word_list_plants_write::write_image_in;

// Replaces the words of a plant and their classes by those of an image; accepted with their number.
// Refusals 4, 9, 8.
pub fn read_image(
    pool: &mut [u32],
    plant: Plant,
    image: &[u8],
    count: &mut usize,
    detail: &mut usize,
) -> u32
    ensures { PlantReadImageTold plant image.now pool.old
        (told result count.new detail.new) pool.new }
{
    let words = read_image_in(pool, plant, image);
    tell(words, count, detail)
}

// Writes the words of a plant and their classes as an image to the front of out; accepted with its
// bytes. Refusals 4, 6.
pub fn write_image(
    pool: &[u32],
    plant: Plant,
    out: &mut [u8],
    count: &mut usize,
    detail: &mut usize,
) -> u32
    ensures { PlantWriteImageTold plant pool.now out.old
        (told result count.new detail.new) out.new }
{
    let bytes = write_image_in(pool, plant, out);
    tell(bytes, count, detail)
}
