// Word list images.
ghost use Rattle.host_telling.specs.Told.{told};
ghost use Rattle.host_images.specs.Calls.{ReadImageTold, WriteImageTold};

// Replaces the words of a dictionary and their classes by those of an image; accepted with their
// number. Refusals 4, 9, 8.
pub fn fetlockice_read_image(
    pool: &mut [u32],
    image: &[u8],
    count: &mut usize,
    detail: &mut usize,
) -> u32
    ensures { ReadImageTold image.now pool.old
        (told result count.new detail.new) pool.new }
{
    host_images::read_image(pool, image, count, detail)
}

// Writes the words of a dictionary and their classes as an image to the front of out; accepted with
// its bytes. Refusals 4, 6.
pub fn fetlockice_write_image(
    pool: &[u32],
    out: &mut [u8],
    count: &mut usize,
    detail: &mut usize,
) -> u32
    ensures { WriteImageTold pool.now out.old
        (told result count.new detail.new) out.new }
{
    host_images::write_image(pool, out, count, detail)
}
