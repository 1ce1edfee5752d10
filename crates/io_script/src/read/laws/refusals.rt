//! Texts that are refused, each for the first thing that is wrong.
ghost use Rattle.std.specs.Prelude.{[], codes};
ghost use Rattle.io_script.specs.Texts.{IsRefused, small, fine, with_file};
ghost use Rattle.io_script.specs.declared.read.cause.Cause.TheVariants.{BadBlock, BadByte, BadBytes, BadCount, BadMode, BadName, BadNumber, BadOrder, BadWord, NoEnd, NoHeader, Overlap, TooMuch};

/// An empty input has no header, in its first line.
pub fn refuses_empty_input()
    ensures { IsRefused [] 1 NoHeader }
{}

/// The header is the first kept line.
pub fn refuses_another_header()
    ensures { IsRefused (codes "# a script\niomap 3\n") 2 NoHeader }
{}

/// The end of the input comes after the last line.
pub fn refuses_a_comment_alone()
    ensures { IsRefused (codes "# a script\n") 2 NoHeader }
{}

/// The device line is missing at the end of the input.
pub fn refuses_input_that_ends_early()
    ensures { IsRefused (codes "iomap 1\n") 2 BadOrder }
{}

/// A tabulator is no space.
pub fn refuses_a_tabulator()
    ensures { IsRefused (small (codes "phase\t\n")) 4 BadByte }
{}

/// A line without its end is refused, comments too.
pub fn refuses_a_line_without_its_end()
    ensures { IsRefused (small (codes "# the end")) 4 NoEnd }
{}

/// A line begins with a word that is known.
pub fn refuses_an_unknown_first_word()
    ensures { IsRefused (small (codes "files f cached 1\n")) 4 BadWord }
{}

/// An unknown call hides that no call may stand here.
pub fn refuses_an_unknown_call_before_any_phase()
    ensures { IsRefused (small (codes "99 frob f\n")) 4 BadWord }
{}

/// The word in the sixth place hides that there is one too many.
pub fn refuses_a_word_in_the_place_of_a_state()
    ensures { IsRefused (small (codes "file f cached 1\next f 0 0 1 x mapped\n")) 5 BadWord }
{}

/// A number alone begins a call line.
pub fn refuses_a_call_before_any_phase()
    ensures { IsRefused (small (codes "5\n")) 4 BadOrder }
{}

/// Where calls may stand, a number alone is too few words.
pub fn refuses_a_call_without_its_words()
    ensures { IsRefused (with_file (codes "5\n")) 6 BadCount }
{}

/// The header stands once.
pub fn refuses_a_second_header()
    ensures { IsRefused (small (codes "iomap 1\n")) 4 BadOrder }
{}

/// Callers are those from 0 to 15.
pub fn refuses_a_caller_out_of_range()
    ensures { IsRefused (with_file (codes "16 sync f\n")) 6 BadNumber }
{}

/// Between two signs there is no number.
pub fn refuses_an_empty_length()
    ensures { IsRefused (with_file (codes "0 pread f 0 1++2\n")) 6 BadNumber }
{}

/// A dash is no number.
pub fn refuses_a_dash_as_a_length()
    ensures { IsRefused (with_file (codes "0 pread f 0 -\n")) 6 BadNumber }
{}

/// A call has at most sixteen segments.
pub fn refuses_seventeen_lengths()
    ensures { IsRefused (with_file (codes "0 pread f 0 1+1+1+1+1+1+1+1+1+1+1+1+1+1+1+1+1\n")) 6 BadBytes }
{}

/// A length that is no number hides that there are too many.
pub fn refuses_a_bad_length_among_seventeen()
    ensures { IsRefused (with_file (codes "0 pread f 0 1+1+1+1+1+1+1+1+1+1+1+1+1+1+1+1+x\n")) 6 BadNumber }
{}

/// How often a byte stands belongs to the form of a segment.
pub fn refuses_a_count_that_is_no_number()
    ensures { IsRefused (with_file (codes "0 pwrite f 0 41x\n")) 6 BadBytes }
{}

/// Digits of bytes come in twos.
pub fn refuses_half_a_byte()
    ensures { IsRefused (small (codes "data 0 000\n")) 4 BadBytes }
{}

/// A data line gives a whole block.
pub fn refuses_too_few_bytes()
    ensures { IsRefused (small (codes "data 0 00x15\n")) 4 BadBytes }
{}

/// A name is given to one file.
pub fn refuses_a_file_twice()
    ensures { IsRefused (small (codes "file f cached 1\nfile f dax 1\n")) 5 BadName }
{}

/// A file has a line of its own first.
pub fn refuses_an_unknown_file()
    ensures { IsRefused (small (codes "ext f 0 0 1 mapped\n")) 4 BadName }
{}

/// An extent lies in its file.
pub fn refuses_an_extent_past_the_file()
    ensures { IsRefused (small (codes "file f cached 1\next f 0 0 2 mapped\n")) 5 BadBlock }
{}

/// A data line names a block of the device.
pub fn refuses_data_past_the_device()
    ensures { IsRefused (small (codes "data 8 00x16\n")) 4 BadBlock }
{}

/// Two extents have no device block in common.
pub fn refuses_a_device_block_twice()
    ensures { IsRefused (codes "iomap 1\ndev 16 8 ee\nfolio 1\nfile f cached 4\next f 0 2 2 mapped\next f 2 3 1 mapped\n") 6 Overlap }
{}

/// A device block is given once.
pub fn refuses_data_twice()
    ensures { IsRefused (small (codes "data 3 00x16\ndata 3 00x16\n")) 5 Overlap }
{}

/// A cached file has no Dax calls.
pub fn refuses_a_mode()
    ensures { IsRefused (with_file (codes "0 xread f 0 1\n")) 6 BadMode }
{}

/// A device has at most 16 MiB.
pub fn refuses_too_large_a_device()
    ensures { IsRefused (codes "iomap 1\ndev 4096 4097 00\n") 2 TooMuch }
{}

/// A call asks at most 16 MiB.
pub fn refuses_too_long_a_write()
    ensures { IsRefused (with_file (codes "0 pwrite f 0 00x16777217\n")) 6 TooMuch }
{}

/// Lengths are added without a bound.
pub fn refuses_a_sum_past_all_numbers()
    ensures { IsRefused (with_file (codes "0 pread f 0 18446744073709551615+18446744073709551615\n")) 6 TooMuch }
{}

/// A call line without its end is refused for that.
pub fn refuses_half_a_call_line()
    ensures { IsRefused (codes "iomap 1\ndev 16 8 ee\nfolio 4\nfile f cached 4\nphase\n0 pre") 6 NoEnd }
{}

/// The first version has no grain line.
pub fn refuses_a_grain_in_the_first_version()
    ensures { IsRefused (small (codes "grain 16\n")) 4 BadOrder }
{}

/// In the second version the grain line stands before the files.
pub fn refuses_a_file_before_the_grain()
    ensures { IsRefused (fine (codes "file f cached 1\n")) 4 BadOrder }
{}

/// In the second version the grain line is not left out.
pub fn refuses_input_that_ends_before_the_grain()
    ensures { IsRefused (fine []) 4 BadOrder }
{}

/// A grain is a power of two from 16 on.
pub fn refuses_too_small_a_grain()
    ensures { IsRefused (fine (codes "grain 8\n")) 4 BadNumber }
{}

/// A grain is at most the block size.
pub fn refuses_a_grain_past_the_block()
    ensures { IsRefused (fine (codes "grain 64\n")) 4 BadNumber }
{}

/// A grain line has one number.
pub fn refuses_a_grain_line_without_its_number()
    ensures { IsRefused (fine (codes "grain\n")) 4 BadCount }
{}

/// A grain line stands once.
pub fn refuses_a_second_grain()
    ensures { IsRefused (fine (codes "grain 32\ngrain 16\n")) 5 BadOrder }
{}

/// A size is a number.
pub fn refuses_a_size_that_is_no_number()
    ensures { IsRefused (small (codes "file f cached 1\nsize f -\n")) 5 BadNumber }
{}

/// A size line names a file.
pub fn refuses_a_size_of_no_file()
    ensures { IsRefused (small (codes "size f 1\n")) 4 BadName }
{}

/// A file has one size.
pub fn refuses_a_second_size()
    ensures { IsRefused (small (codes "file f cached 1\nsize f 16\nsize f 17\n")) 6 BadName }
{}

/// A size lies in its file, the end included.
pub fn refuses_a_size_past_the_file()
    ensures { IsRefused (small (codes "file f cached 1\nsize f 17\n")) 5 BadBlock }
{}

/// A Dax file has no size, and a size past its end hides that.
pub fn refuses_a_size_of_a_dax_file()
    ensures { IsRefused (small (codes "file g dax 1\nsize g 16\n")) 5 BadMode }
{}

/// A size line stands before the first phase.
pub fn refuses_a_size_after_a_phase()
    ensures { IsRefused (with_file (codes "size f 1\n")) 6 BadOrder }
{}

/// A file without a size is not cut.
pub fn refuses_a_cut_of_a_file_without_a_size()
    ensures { IsRefused (with_file (codes "0 trunc f 1\n")) 6 BadMode }
{}

/// A cut has one number.
pub fn refuses_a_cut_with_two_numbers()
    ensures { IsRefused (with_file (codes "0 trunc f 1 1\n")) 6 BadCount }
{}

/// A file with a size has no direct calls.
pub fn refuses_a_direct_call_of_a_file_with_a_size()
    ensures { IsRefused (small (codes "file f cached 1\nsize f 16\nphase\n0 pread f 0 1\n0 dread f 0 16\n")) 8 BadMode }
{}
